// What a reader answers, and the code that it writes.
ghost use Rattle.std.specs.Prelude.{◌≡◌, ◌<◌};
ghost use Rattle.conditions.specs.Working.Numbered.{operand_of, prefix_of};
ghost use Rattle.conditions.specs.Working.Emit.{slot_of, above, put, word_top, word_written, ran, refused, finish_at, ended_at, valued_at, closed_at};

use crate::table::{TEST, TEXT, TRUE, is_fit, operand_of, prefix_of, result_of};
use lexical::kind;
use lexical::line::token_at;
use lexical::token::Token;
use syntax;
use syntax::fault::{Fault, misplaced};

// What was read: its sort, the place of a bare word that is not settled yet, the end of the code, and the token behind it. A fault of
// reason 0 is that of a reader that was given too little. The sort is a whole word, as the reason of a fault is: a copy of a byte and of what is
// beside it waits for the stores of both.
#[derive(Clone, Copy)]
pub struct Found {
    pub place: usize,
    pub top: usize,
    pub next: Token,
    pub sort: usize,
}

// A place of the text in an entry.
fn narrow(at: usize) -> u32
    requires { at < 65536 }
    ensures { result ≡ at }
{
    at as u32
}

// The entry of an operation and a place.
fn slot(op: u32, at: usize) -> u32
    ensures { result ≡ slot_of op at }
{
    if 65536 <= at {
        return 0;
    }
    if 64 <= op {
        return 0;
    }
    op * 65536 + narrow(at)
}

// Writes an entry at the end of the code, where there is room, and says where the code ends then.
pub fn push(code: &mut [u32], top: usize, op: u32, at: usize) -> usize
    ensures value { result ≡ above code.old top }
    ensures code_after { code.new ≡ put code.old top op at }
{
    if code.len() <= top {
        return top;
    }
    code[top] = slot(op, at);
    top + 1
}

// Writes a bare word as the test or the string that is wanted; anything else is written already.
pub fn write_word(code: &mut [u32], top: usize, wanted: usize, sort: usize, place: usize) -> usize
    ensures value { result ≡ word_top code.old top sort }
    ensures code_after { code.new ≡ word_written code.old top wanted sort place }
{
    if sort < TRUE {
        return top;
    }
    if wanted == TEXT {
        return push(code, top, syntax::NAME, place);
    }
    if sort == TRUE {
        return push(code, top, syntax::TRUE, 0);
    }
    push(code, top, syntax::FALSE, 0)
}

// Writes a bare word as what the operator takes.
pub fn write_word_for(code: &mut [u32], top: usize, op: u32, sort: usize, place: usize) -> usize
    ensures value { result ≡ word_top code.old top sort }
    ensures code_after { code.new ≡ word_written code.old top (operand_of op) sort place }
{
    if sort < TRUE {
        return top;
    }
    let w = operand_of(op);
    write_word(code, top, w, sort, place)
}

// A token that may not stand where it stands.
pub fn unexpected(t: Token) -> Result<Found, Fault>
    ensures { result ≡ refused t }
{
    Err(misplaced(t))
}

// Writes an operator behind its last operand.
pub fn finish_any(
    code: &mut [u32],
    top: usize,
    op: u32,
    sort: usize,
    place: usize,
    next: Token,
) -> Result<Found, Fault>
    ensures { ran result code.new ≡ finish_at code.old top op sort place next }
{
    let w = operand_of(op);
    if is_fit(w, sort) {
        let u = write_word_for(code, top, op, sort, place);
        let v = push(code, u, op, 0);
        return Ok(Found {
            sort: result_of(op),
            place: 0,
            top: v,
            next,
        });
    }
    unexpected(next)
}

// Writes a prefix operator behind its operand.
pub fn finish_prefix(
    code: &mut [u32],
    top: usize,
    op: u32,
    sort: usize,
    place: usize,
    next: Token,
) -> Result<Found, Fault>
    ensures { ran result code.new ≡ finish_at code.old top (prefix_of op sort) sort place next }
{
    let p = prefix_of(op, sort);
    finish_any(code, top, p, sort, place, next)
}

// `finish_any`, at once where the operand is no bare word. It buys 8 % of powers.
pub fn finish(
    code: &mut [u32],
    top: usize,
    op: u32,
    sort: usize,
    place: usize,
    next: Token,
) -> Result<Found, Fault>
    ensures { ran result code.new ≡ finish_at code.old top op sort place next }
{
    if TRUE <= sort {
        return finish_any(code, top, op, sort, place, next);
    }
    if sort != operand_of(op) {
        return unexpected(next);
    }
    let v = push(code, top, op, 0);
    Ok(Found {
        sort: result_of(op),
        place: 0,
        top: v,
        next: Token {
            kind: next.kind,
            start: next.start,
            end: next.end,
        },
    })
}

// Writes the end of a clause, before the token t, which ends it.
#[inline(always)]
pub fn ended(s: &[u8], code: &mut [u32], top: usize, op: u32, t: Token) -> Result<Found, Fault>
    ensures { ran result code.new ≡ ended_at s.now code.old top op t }
{
    if t.kind != kind::SEMICOLON {
        return unexpected(t);
    }
    let u = push(code, top, op, 0);
    let n = token_at(s, kind::IN_FIELD, t.end);
    Ok(Found {
        sort: TEST,
        place: 0,
        top: u,
        next: n,
    })
}

// Writes the end of a clause whose value is a string, before the token t, which ends it.
pub fn valued(
    s: &[u8],
    code: &mut [u32],
    top: usize,
    sort: usize,
    place: usize,
    t: Token,
) -> Result<Found, Fault>
    ensures { ran result code.new ≡ valued_at s.now code.old top sort place t }
{
    if is_fit(TEXT, sort) {
        let u = write_word(code, top, TEXT, sort, place);
        return ended(s, code, u, syntax::VALUED, t);
    }
    unexpected(t)
}

// Past the closing bracket t.
pub fn closed(s: &[u8], sort: usize, place: usize, top: usize, t: Token) -> Result<Found, Fault>
    ensures { result ≡ closed_at s.now sort place top t }
{
    if t.kind != kind::CLOSE {
        return unexpected(t);
    }
    let n = token_at(s, kind::IN_FIELD, t.end);
    Ok(Found {
        sort,
        place,
        top,
        next: n,
    })
}
