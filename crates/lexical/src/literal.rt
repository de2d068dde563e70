// Literals: where one ends, how long it is decoded, and its decoding into a lent buffer.
ghost use Rattle.std.specs.Prelude.{◌≡◌, ◌+◌, ◌≤◌, eqb, leb, length, get_or};
ghost use Rattle.std.proofs.lemmas.List.Edits.{sets};
ghost use Rattle.text.specs.Scan.{past};
ghost use Rattle.lexical.specs.Literal.{literal_end, decoded_at, units_at, given};
ghost use Rattle.lexical.specs.Decode.{ran, decode_into, within, decode_within};
ghost use Rattle.lexical.specs.Working.Plain.{plain, bare_end};
ghost use Rattle.lexical.specs.Found.{found};
ghost use Rattle.lexical.specs.Working.Short.{near, sized};

use crate::scan::{byte_at, end_of};
use crate::unit::{Unit, is_barred, unit_at};

// Does a literal hold this byte as it stands? Small letters are the commonest.
#[tactic(auto, unfolding(crate::specs::Working::Plain::plain, crate::specs::Unit::barred))]
fn is_plain(b: u8) -> bool
    ensures { result ≡ plain b }
{
    b'\\' < b || b != b'\\' && b != b'"' && !is_barred(b)
}

// The end of the bytes from `from` on that a literal holds as they stand.
pub fn plain_end(s: &[u8], from: usize) -> usize
    ensures { result ≡ past plain s.now from }
{
    end_of(s, from, is_plain)
}

// Does a quote stand at i?
pub fn closes_at(s: &[u8], i: usize) -> bool
    ensures { result ≡ eqb (get_or s.now i 0) 34 }
{
    byte_at(s, i, 0) == b'"'
}

// The end of a literal from the unit at `from` on; none where it does not close or holds something illegal.
#[tactic(auto, using(crate::proofs::LiteralWays::ending))]
pub fn units_end(s: &[u8], from: usize) -> Option<usize>
    ensures { result ≡ found (literal_end s.now from) }
{
    // Kept: a turn steps by a unit's width, so there is no range to go over.
    let mut i = from;
    loop {
        match unit_at(s, i) {
            Unit::Drops { width } | Unit::Gives { width, byte: _ } => i += width,
            Unit::Closes => return Some(i + 1),
            Unit::Spoils => return None,
        }
    }
}

// How many bytes the literal whose opening quote stands at `start` gives.
#[tactic(auto, using(crate::proofs::LiteralWays::counting))]
pub fn literal_length(s: &[u8], start: usize) -> usize
    ensures { result ≡ length (decoded_at s.now start) }
{
    if s.len() <= start {
        return 0;
    }
    // Kept: a turn steps by a unit's width, so there is no range to go over.
    let mut i = start + 1;
    let mut n: usize = 0;
    loop {
        match unit_at(s, i) {
            Unit::Drops { width } => i += width,
            Unit::Gives { width, byte: _ } => {
                n += 1;
                i += width;
            }
            Unit::Closes | Unit::Spoils => return n,
        }
    }
}

// Does a quote behind a byte other than a backslash stand before `end`, and no more than `most` bytes from `start` to there?
#[tactic(auto, unfolding(crate::specs::Working::Short::near))]
fn is_near(s: &[u8], start: usize, end: usize, most: usize) -> bool
    ensures { result ≡ near s.now start end most }
{
    end <= s.len()
        && start < end
        && end - start <= most
        && 2 <= end - start
        && s[end - 1] == b'"'
        && s[end - 2] != b'\\'
}

// Does the literal from `start` to `end` give at most so many bytes? It is decoded only where its end does not tell.
#[tactic(auto, using(crate::proofs::LiteralWays::short))]
pub fn is_short(s: &[u8], start: usize, end: usize, most: usize) -> bool
    ensures { result ≡ leb (length (decoded_at s.now start)) most }
{
    is_near(s, start, end, most) || literal_length(s, start) <= most
}

// Is it plain that the literal from `start` to `end` gives a byte, and at most so many?
#[tactic(auto, unfolding(crate::specs::Working::Short::sized))]
pub fn is_sized(s: &[u8], start: usize, end: usize, most: usize) -> bool
    ensures { result ≡ sized s.now start end most }
{
    is_near(s, start, end, most) && is_plain(byte_at(s, start, 1))
}

// Where the literal at `start` closes, if it holds plain bytes only.
#[tactic(auto, using(crate::proofs::LiteralWays::bare), unfolding(crate::specs::Working::Plain::bare_end))]
pub fn bare_end(s: &[u8], start: usize) -> Option<usize>
    ensures { result ≡ bare_end s.now start }
{
    if s.len() <= start {
        return None;
    }
    let e = plain_end(s, start + 1);
    if closes_at(s, e) { Some(e) } else { None }
}

// Writes what the units from `from` on give into buf, from `at` on.
#[tactic(auto, using(crate::proofs::LiteralWays::writing))]
fn write(s: &[u8], from: usize, buf: &mut [u8], at: usize)
    requires { at + length (given (units_at s.now from)) ≤ length buf.old }
    ensures { buf.new ≡ sets buf.old at (given (units_at s.now from)) }
{
    // Kept: a turn steps by a unit's width, so there is no range to go over.
    let mut i = from;
    let mut top = at;
    loop {
        match unit_at(s, i) {
            Unit::Drops { width } => i += width,
            Unit::Gives { width, byte } => {
                buf[top] = byte;
                top += 1;
                i += width;
            }
            Unit::Closes | Unit::Spoils => return,
        }
    }
}

// Decodes unit by unit, where that gives n bytes.
#[tactic(auto, using(crate::proofs::LiteralWays::into))]
fn decode_units(s: &[u8], start: usize, buf: &mut [u8], at: usize, n: usize) -> bool
    requires { n ≡ length (decoded_at s.now start) }
    ensures { ran result buf.new ≡ decode_into s.now start buf.old at }
{
    if buf.len() < at || buf.len() - at < n {
        return false;
    }
    if start < s.len() {
        write(s, start + 1, buf, at);
    }
    true
}

// Writes what the literal at `start` gives into buf, from `at` on; where it does not fit, writes nothing and says false.
pub fn decode_into(s: &[u8], start: usize, buf: &mut [u8], at: usize) -> bool
    ensures { ran result buf.new ≡ decode_into s.now start buf.old at }
{
    let n = literal_length(s, start);
    decode_units(s, start, buf, at, n)
}

// Why a literal was not put: it gives more bytes than are allowed, or there is no room for them.
#[derive(Clone, Copy)]
pub enum DecodeError {
    Long,
    Full,
}

// Writes what the literal at `start` gives into buf, from `at` on, if that is no more than `most` bytes and they fit; else writes nothing.
#[tactic(auto, using(crate::proofs::LiteralWays::inside))]
pub fn decode_within(
    s: &[u8],
    start: usize,
    buf: &mut [u8],
    at: usize,
    most: usize,
) -> Result<usize, DecodeError>
    ensures { within result buf.new ≡ decode_within s.now start buf.old at most }
{
    let n = literal_length(s, start);
    if most < n {
        return Err(DecodeError::Long);
    }
    if decode_units(s, start, buf, at, n) {
        return Ok(n);
    }
    Err(DecodeError::Full)
}
