// Prints for each record of the file `rulings` its name and its answer in one line, with `|` for each newline.
#![tactic(auto)]

use input::read_full;
use printed::{LINES, answer_lines, cut};
use std::io;
use std::io::Write;
use text::counted_at;

// Room for the file.
const ROOM: usize = 262144;

fn put_ruling<W: Write>(to: &mut W, name: &[u8], record: &[u8]) -> io::Result<()> {
    to.write_all(name)?;
    to.write_all(b" ")?;
    let mut out = [0u8; LINES];
    let size = answer_lines(record, b"|", &mut out);
    to.write_all(cut(&out, size))?;
    to.write_all(b"\n")
}

// Past the string that starts at a place and the two-byte length of the next one, or past the end.
fn next_string(file: &[u8], at: usize, size: usize) -> usize {
    if file.len() <= at {
        return file.len();
    }
    let left = file.len() - at;
    if left <= size {
        return file.len();
    }
    if left - size <= 2 {
        return file.len();
    }
    at + size + 2
}

// A file is names and records in turn, each behind its two-byte length.
fn put_rulings<W: Write>(to: &mut W, file: &[u8]) -> io::Result<()> {
    let mut at: usize = 2;
    while at < file.len() {
        let name = counted_at(file, at);
        let from = next_string(file, at, name.len());
        let record = counted_at(file, from);
        put_ruling(to, name, record)?;
        let next = next_string(file, from, record.len());
        if next <= at {
            return Ok(());
        }
        at = next;
    }
    Ok(())
}

// The file as a whole is too long for a record.
fn main(rt: HostRuntime) -> io::Result<()> {
    let mut to = io::writer(&rt);
    let mut rulings = std::fs::open(&rt, "rulings")?;
    let mut file = [0u8; ROOM];
    let size = read_full(&mut rulings, &mut file)?;
    put_rulings(&mut to, &file[..size])?;
    put_ruling(&mut to, b"too-long", &file[..size])
}
