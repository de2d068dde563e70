// Worked queries as tables of numbers: rank, rounds and reached of each are printed, and compared with `stdout`.
#![tactic(auto)]

use compliance::machine::{AND, OR, TOP, ZERO, k_of};
use compliance::{Solution, solve};
use std::io;
use std::io::Write;

fn show<W: Write>(out: &mut W, s: Solution) -> io::Result<()> {
    writeln!(
        out,
        "rank {} rounds {} reached {}",
        s.rank, s.rounds, s.reached
    )
}

// POLICY to 1, 1 to 2, 2 to 3, and 3 asks.
fn chain<W: Write>(out: &mut W) -> io::Result<()> {
    let s = solve(
        &[0, 1, 2],
        &[1, 1, 1],
        &[1, 2, 3],
        &[1, 2, 3],
        &[0, 0, 0, 1],
        1,
    );
    show(out, s)
}

// POLICY to 1, 1 to 2, 2 to 1: 3 asks, who is not reached, then 2.
fn ring<W: Write>(out: &mut W) -> io::Result<()> {
    let unreached = solve(
        &[0, 1, 2],
        &[1, 1, 1],
        &[1, 2, 3],
        &[1, 2, 1],
        &[0, 0, 0, 1],
        1,
    );
    show(out, unreached)?;
    let reached = solve(
        &[0, 1, 2],
        &[1, 1, 1],
        &[1, 2, 3],
        &[1, 2, 1],
        &[0, 0, 1],
        1,
    );
    show(out, reached)
}

// POLICY to 2-of 1, 2 and 3; 1 to 2 and 3; 4, whom nobody reaches, to 1 or 2. Ranks up to 3, conditions lower; 2 and 3 ask.
fn web<W: Write>(out: &mut W) -> io::Result<()> {
    let s = solve(
        &[0, 1, 4],
        &[2, 3, 3],
        &[4, 7, 10],
        &[1, 2, 3, k_of(2, 3), 2, 3, AND, 1, 2, OR],
        &[0, 0, 1, 1, 0],
        3,
    );
    show(out, s)
}

// Licensees missing, then empty; no assertions.
fn plain<W: Write>(out: &mut W) -> io::Result<()> {
    let missing = solve(&[0], &[1], &[1], &[TOP], &[0, 1], 1);
    show(out, missing)?;
    let empty = solve(&[0], &[1], &[1], &[ZERO], &[0, 1], 1);
    show(out, empty)?;
    let none = solve(&[], &[], &[], &[], &[0, 1], 1);
    show(out, none)
}

fn main(rt: HostRuntime) -> io::Result<()> {
    let mut out = io::writer(&rt);
    chain(&mut out)?;
    ring(&mut out)?;
    web(&mut out)?;
    plain(&mut out)
}
