// Operands of one token.
ghost use Rattle.std.specs.Prelude.{◌≡◌, ◌-◌, ltb};
ghost use Rattle.limits.specs.Limits.{most_float};
ghost use Rattle.conditions.specs.Working.Numbered.{word_sort};
ghost use Rattle.conditions.specs.Working.Emit.{ran};
ghost use Rattle.conditions.specs.Working.Leaf.{literal_read, name_read, digits_read, float_read, leaf_read};

use crate::emit::{Found, push};
use crate::table::{ANY, FALSE, FLOAT, INTEGER, TEXT, TRUE};
use lexical::kind;
use lexical::line::token_at;
use lexical::literal::is_short;
use lexical::number::is_large;
use lexical::token::Token;
use lexical::word::{is_false, is_true};
use limits::{MOST_FLOAT, MOST_LITERAL};
use syntax;
use syntax::fault::{Fault, OUT_OF_RANGE, OVER_LIMIT};

// A literal.
fn literal(s: &[u8], code: &mut [u32], top: usize, t: Token) -> Result<Found, Fault>
    ensures { ran result code.new ≡ literal_read s.now code.old top t }
{
    if is_short(s, t.start, t.end, MOST_LITERAL) {
        let u = push(code, top, syntax::LITERAL, t.start);
        let next = token_at(s, kind::IN_FIELD, t.end);
        return Ok(Found {
            sort: TEXT,
            place: 0,
            top: u,
            next,
        });
    }
    Err(Fault {
        reason: OVER_LIMIT,
        place: t.start,
    })
}

// The sort of a name: the bare words true and false are not settled yet.
fn sort_of_name(s: &[u8], want: usize, start: usize, end: usize) -> usize
    ensures { result ≡ word_sort s.now want start end }
{
    if want != ANY {
        return TEXT;
    }
    if is_true(s, start, end) {
        return TRUE;
    }
    if is_false(s, start, end) {
        return FALSE;
    }
    TEXT
}

// A name.
fn name(s: &[u8], code: &mut [u32], top: usize, want: usize, t: Token) -> Result<Found, Fault>
    ensures { ran result code.new ≡ name_read s.now code.old top want t }
{
    let w = sort_of_name(s, want, t.start, t.end);
    let next = token_at(s, kind::IN_FIELD, t.end);
    if w != TEXT {
        return Ok(Found {
            sort: w,
            place: t.start,
            top,
            next,
        });
    }
    let u = push(code, top, syntax::NAME, t.start);
    Ok(Found {
        sort: TEXT,
        place: 0,
        top: u,
        next,
    })
}

// An integer literal.
fn digits(s: &[u8], code: &mut [u32], top: usize, t: Token) -> Result<Found, Fault>
    ensures { ran result code.new ≡ digits_read s.now code.old top t }
{
    if is_large(s, t.start, t.end) {
        return Err(Fault {
            reason: OUT_OF_RANGE,
            place: t.start,
        });
    }
    let u = push(code, top, syntax::NUMBER, t.start);
    let next = token_at(s, kind::IN_FIELD, t.end);
    Ok(Found {
        sort: INTEGER,
        place: 0,
        top: u,
        next,
    })
}

// Are there more bytes than a float literal may have?
fn is_wide(start: usize, end: usize) -> bool
    ensures { result ≡ ltb most_float (end - start) }
{
    if end <= start {
        return false;
    }
    MOST_FLOAT < end - start
}

// A float literal.
fn float(s: &[u8], code: &mut [u32], top: usize, t: Token) -> Result<Found, Fault>
    ensures { ran result code.new ≡ float_read s.now code.old top t }
{
    if is_wide(t.start, t.end) {
        return Err(Fault {
            reason: OVER_LIMIT,
            place: t.start,
        });
    }
    let u = push(code, top, syntax::DECIMAL, t.start);
    let next = token_at(s, kind::IN_FIELD, t.end);
    Ok(Found {
        sort: FLOAT,
        place: 0,
        top: u,
        next,
    })
}

// A token that may stand as an operand and is neither a prefix operator nor a bracket.
pub fn leaf(s: &[u8], code: &mut [u32], top: usize, want: usize, t: Token) -> Result<Found, Fault>
    ensures { ran result code.new ≡ leaf_read s.now code.old top want t }
{
    if t.kind == kind::LITERAL {
        return literal(s, code, top, t);
    }
    if t.kind == kind::NAME {
        return name(s, code, top, want, t);
    }
    if t.kind == kind::DIGITS {
        return digits(s, code, top, t);
    }
    float(s, code, top, t)
}
