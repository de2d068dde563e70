// One unit of a literal: a byte, an escape, a line continuation, the closing quote.
ghost use Rattle.std.specs.Prelude.{◌≡◌, ◌<◌, length, get_or};
ghost use Rattle.lexical.specs.Unit.{octal, control, coded, octal_unit, escape_unit, barred, unit_at};
ghost use Rattle.lexical.specs.Found.{found};

use crate::number::digit;
use crate::scan::{Run, byte_at};

// What it does and how many bytes it takes: it gives no byte, or one; it is the closing quote; no literal can hold it.
#[derive(Clone, Copy)]
pub enum Unit {
    Drops { width: usize },
    Gives { width: usize, byte: u8 },
    Closes,
    Spoils,
}

#[tactic(auto, unfolding(crate::specs::Unit::octal))]
fn is_octal(b: u8) -> bool
    ensures { result ≡ octal b }
{
    matches!(b, b'0'..=b'7')
}

// The byte that \n, \r, \t or \f gives.
#[tactic(auto, unfolding(crate::specs::Unit::control))]
fn control_of(b: u8) -> Option<u8>
    ensures { result ≡ found (control b) }
{
    match b {
        b'n' => Some(b'\n'),
        b'r' => Some(b'\r'),
        b't' => Some(b'\t'),
        b'f' => Some(12),
        _ => None,
    }
}

// An octal escape of value v and width w that starts with the digit b.
#[tactic(auto, unfolding(crate::specs::Unit::coded))]
fn coded_unit(v: u64, w: usize, b: u8) -> Unit
    ensures { result ≡ coded v w b }
{
    match v {
        0 => Unit::Gives { width: 2, byte: b },
        1..=255 => Unit::Gives {
            width: w,
            byte: v as u8,
        },
        _ => Unit::Spoils,
    }
}

// A backslash before the octal digit b, then c and d.
#[tactic(auto, unfolding(crate::specs::Unit::octal_unit))]
fn octal_unit(b: u8, c: u8, d: u8) -> Unit
    ensures { result ≡ octal_unit b c d }
{
    if is_octal(c) && is_octal(d) {
        return coded_unit(digit(b) * 64 + digit(c) * 8 + digit(d), 4, b);
    }
    if is_octal(c) && b == b'0' {
        return coded_unit(digit(c), 3, b);
    }
    Unit::Gives { width: 2, byte: b }
}

// A backslash before b, c and d, where b is no newline.
#[tactic(auto, unfolding(crate::specs::Unit::escape_unit))]
fn escape_unit(b: u8, c: u8, d: u8) -> Unit
    ensures { result ≡ escape_unit b c d }
{
    if b == 0 {
        return Unit::Spoils;
    }
    if let Some(byte) = control_of(b) {
        return Unit::Gives { width: 2, byte };
    }
    if is_octal(b) {
        return octal_unit(b, c, d);
    }
    Unit::Gives { width: 2, byte: b }
}

// Is it NUL, newline or return?
#[tactic(auto, unfolding(crate::specs::Unit::barred))]
pub fn is_barred(b: u8) -> bool
    ensures { result ≡ barred b }
{
    matches!(b, 0 | b'\n' | b'\r')
}

// The unit that the backslash at i begins.
#[tactic(auto, using(text::specs::Choice::tests, crate::proofs::UnitWays::dropping), unfolding(crate::specs::Unit::unit_at))]
fn escaped_at(s: &[u8], i: usize) -> Unit
    requires i_in_bounds { i < length s.now }
    requires i_value { get_or s.now i 0 ≡ 92 }
    ensures { result ≡ unit_at s.now i }
{
    let b = byte_at(s, i, 1);
    if b == b'\n' {
        let width = Run::White.end(s, i + 2) - i;
        return Unit::Drops { width };
    }
    escape_unit(b, byte_at(s, i, 2), byte_at(s, i, 3))
}

// The unit at i.
#[inline(always)]
#[tactic(auto, unfolding(crate::specs::Unit::unit_at))]
pub fn unit_at(s: &[u8], i: usize) -> Unit
    ensures { result ≡ unit_at s.now i }
{
    if s.len() <= i {
        return Unit::Spoils;
    }
    match s[i] {
        b'"' => Unit::Closes,
        b'\\' => escaped_at(s, i),
        byte if is_barred(byte) => Unit::Spoils,
        byte => Unit::Gives { width: 1, byte },
    }
}
