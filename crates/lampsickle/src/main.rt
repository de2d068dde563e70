// Reads a query's record from standard input and prints its class, the rounds, the reach and what became of each assertion, or its refusal.
#![tactic(auto)]

use input::{large_buffer, read_full};
use printed::{LINES, answer_lines, cut};
use std::io;
use std::io::Write;

// The buffer holds one byte more than the longest record, so a longer one is refused as such.
fn main(rt: HostRuntime) -> io::Result<()> {
    let mut record = large_buffer();
    let n = read_full(&mut rt.stdin(), &mut record)?;
    let mut out = [0u8; LINES];
    let size = answer_lines(&record[..n], b"\n", &mut out);
    io::writer(&rt).write_all(cut(&out, size))
}
