// Prints the tokens of each text of a file, a line for a text. A text is a line of the file, in which \n \r \t \0 \\ and \xHH stand for those bytes.
// A token is kind@start-end, then the decoded bytes of a literal, the value of digits, or the keyword that a name is; the last is the end or a fault.
#![tactic(auto)]

ghost use Rattle.std.specs.Prelude.{◌<◌, ◌≤◌};

use input::{large_buffer, read_full};
use lexical::kind;
use lexical::line::token_at;
use lexical::literal::{decode_into, literal_length};
use lexical::number::number_at;
use lexical::scan::byte_at;
use lexical::token::Token;
use lexical::word::{is_false, is_true};
use std::io::Write;
use std::rt::{Env, Files};
use std::{env, fs, io};

fn put_hex<W: Write>(out: &mut W, bytes: &[u8]) -> io::Result<()> {
    for b in bytes {
        write!(out, "{b:02x}")?;
    }
    Ok(())
}

// What a literal gives, where buf has room for it.
fn put_decoded<W: Write>(out: &mut W, s: &[u8], start: usize, buf: &mut [u8]) -> io::Result<()> {
    out.write_all(b"=")?;
    if decode_into(s, start, buf, 0) {
        let n = literal_length(s, start).min(buf.len());
        put_hex(out, &buf[..n])?;
    }
    Ok(())
}

fn put_literal<W: Write>(out: &mut W, s: &[u8], start: usize) -> io::Result<()> {
    let mut buf = large_buffer();
    put_decoded(out, s, start, &mut buf)
}

// The keyword that a name is.
fn put_name<W: Write>(out: &mut W, s: &[u8], t: Token) -> io::Result<()> {
    if is_true(s, t.start, t.end) {
        out.write_all(b"=true")?;
    }
    if is_false(s, t.start, t.end) {
        out.write_all(b"=false")?;
    }
    Ok(())
}

fn put_value<W: Write>(out: &mut W, s: &[u8], t: Token) -> io::Result<()> {
    match t.kind {
        kind::LITERAL => put_literal(out, s, t.start),
        kind::DIGITS => write!(out, "={}", number_at(s, t.start, t.end)),
        kind::NAME => put_name(out, s, t),
        _ => Ok(()),
    }
}

fn put_token<W: Write>(out: &mut W, s: &[u8], t: Token) -> io::Result<()> {
    write!(out, "{}@{}-{}", t.kind, t.start, t.end)?;
    put_value(out, s, t)
}

fn show<W: Write>(out: &mut W, s: &[u8]) -> io::Result<()> {
    // Kept: a turn goes on behind a token, so there is no range to go over.
    let mut mode = kind::BEFORE;
    let mut at: usize = 0;
    while at <= s.len() {
        let t = token_at(s, mode, at);
        put_token(out, s, t)?;
        if t.end <= at || t.kind <= kind::BAD_LINE {
            break;
        }
        out.write_all(b" ")?;
        mode = kind::mode_after(mode, t.kind);
        at = t.end;
    }
    out.write_all(b"\n")
}

fn hex_value(b: u8) -> u8
    ensures { result < 16 }
{
    match b {
        b'0'..=b'9' => b - b'0',
        b'a'..=b'f' => b - b'a' + 10,
        _ => 0,
    }
}

// The byte that a backslash and b stand for; \xHH has its digits in c and d.
fn escaped(b: u8, c: u8, d: u8) -> u8 {
    match b {
        b'n' => b'\n',
        b'r' => b'\r',
        b't' => b'\t',
        b'0' => 0,
        b'x' => hex_value(c) * 16 + hex_value(d),
        _ => b,
    }
}

fn escape_width(b: u8) -> usize
    ensures { result ≤ 4 }
{
    if b == b'x' { 4 } else { 2 }
}

#[derive(Clone, Copy)]
struct Piece {
    byte: u8,
    next: usize,
}

// The byte of a text that stands in the file at i, and where the next one does.
fn piece_at(d: &[u8], i: usize) -> Piece {
    if d.len() <= i {
        return Piece { byte: 0, next: i };
    }
    let a = d[i];
    if a != b'\\' {
        return Piece {
            byte: a,
            next: i + 1,
        };
    }
    let b = byte_at(d, i, 1);
    Piece {
        byte: escaped(b, byte_at(d, i, 2), byte_at(d, i, 3)),
        next: i + escape_width(b),
    }
}

// Shows each line of d; `text` holds a line's bytes.
fn show_all<W: Write>(out: &mut W, d: &[u8], text: &mut [u8]) -> io::Result<()> {
    // Kept: a turn goes on behind a piece, and one buffer of fixed size holds each line in turn.
    let mut i: usize = 0;
    let mut n: usize = 0;
    while i < d.len() {
        if d[i] == b'\n' {
            show(out, &text[..n])?;
            n = 0;
            i += 1;
            continue;
        }
        let p = piece_at(d, i);
        if p.next <= i {
            return Ok(());
        }
        if n < text.len() {
            text[n] = p.byte;
            n += 1;
        }
        i = p.next;
    }
    Ok(())
}

// The file that the first argument names; with no argument that is no file.
fn texts<R: Files + Env + Alloc>(rt: &R) -> io::Result<R::File> {
    match env::args(rt)?.nth(1) {
        Some(path) => fs::open(rt, path),
        None => fs::open(rt, ""),
    }
}

fn main(rt: HostRuntime) -> io::Result<()> {
    let mut out = io::writer(&rt);
    let mut file = large_buffer();
    let size = read_full(&mut texts(&rt)?, &mut file)?;
    let mut text = large_buffer();
    show_all(&mut out, &file[..size], &mut text)
}

#[cfg(test)]
mod tests {
    use lexical::scan::end_marked;

    // The table marks two bytes, the highest one among them.
    #[test]
    fn ends_at_a_byte_that_is_not_marked(rt: HostRuntime) {
        let mut marks = [false; 256];
        marks[97] = true;
        marks[255] = true;
        for (at, end) in [(0, 3), (2, 3), (3, 3), (4, 4), (9, 9)] {
            assert_eq!(rt; end_marked(b"aa\xffb", at, &marks), end, "at {at}");
        }
    }
}
