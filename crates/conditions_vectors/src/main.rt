// Reads the Conditions field of each text of a file and prints `kept`, or the reason and the place of its first fault. The byte 30 ends a text.
#![tactic(auto)]

use conditions::program::conditions;
use input::{large_buffer, read_full};
use lexical::kind;
use lexical::label::label_kind;
use lexical::line::token_at;
use std::io::Write;
use std::rt::{Env, Files};
use std::{env, fs, io};
use syntax::fault::Fault;

// The longest text.
const MOST: usize = 8192;

fn put_fault<W: Write>(out: &mut W, fault: Fault) -> io::Result<()> {
    write!(out, "reason {} at {}\n", fault.reason, fault.place)
}

// The place behind the label of the Conditions field, or the text's start where there is none.
fn field_start(s: &[u8]) -> usize {
    for i in 0..s.len() {
        if label_kind(s, i) == kind::CONDITIONS {
            return i + 11;
        }
    }
    0
}

fn read<W: Write>(out: &mut W, s: &[u8], code: &mut [u32]) -> io::Result<()> {
    let t = token_at(s, kind::IN_FIELD, field_start(s));
    match conditions(s, code, 0, t) {
        Ok(_) => out.write_all(b"kept\n"),
        Err(fault) => put_fault(out, fault),
    }
}

// Reads each text of d.
fn read_all<W: Write>(out: &mut W, d: &[u8], code: &mut [u32]) -> io::Result<()> {
    let mut from: usize = 0;
    for (i, b) in d.iter().enumerate() {
        if *b == 30 {
            read(out, &d[from..i], code)?;
            from = i + 1;
        }
    }
    Ok(())
}

// The file that the first argument names; with no argument that is no file.
fn texts<R: Files + Env + Alloc>(rt: &R) -> io::Result<R::File> {
    match env::args(rt)?.nth(1) {
        Some(path) => fs::open(rt, path),
        None => fs::open(rt, ""),
    }
}

fn main(rt: HostRuntime) -> io::Result<()> {
    let mut out = io::writer(&rt);
    let mut file = large_buffer();
    let size = read_full(&mut texts(&rt)?, &mut file)?;
    let mut code = [0u32; MOST];
    read_all(&mut out, &file[..size], &mut code)
}
