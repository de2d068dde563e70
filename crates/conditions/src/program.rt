// Programs: clauses one after the other, whose values may be programs again. Each function is given a depth, which falls at every call.
ghost use Rattle.std.specs.Prelude.{◌≡◌, ◌-◌, length};
ghost use Rattle.conditions.specs.Working.Emit.{ran};
ghost use Rattle.conditions.specs.Working.Program.{clause_at, tested_at, value_at, nested_at, program_at, clauses_at, last_at, conditions_at};

use crate::emit::{Found, ended, push, unexpected, valued, write_word};
use crate::expression::expression;
use crate::table::{ANY, TEST, TEXT, is_fit, is_stop};
use lexical::kind;
use lexical::line::token_at;
use lexical::token::Token;
use limits::{MOST_BRACKETS, MOST_PREFIXES};
use syntax;
use syntax::fault::{Fault, NO_ROOM, OVER_LIMIT};

// A depth that no text exhausts.
pub const DEPTH: usize = 10
    + 3 * (7 * (MOST_PREFIXES + 1) * MOST_BRACKETS + 6 * (MOST_PREFIXES + 1) + MOST_PREFIXES);

// A clause.
#[cycle(clause_clauses_nested_program_tested_value)]
fn clause(
    s: &[u8],
    code: &mut [u32],
    top: usize,
    nest: usize,
    t: Token,
    d: usize,
) -> Result<Found, Fault>
    ensures { ran result code.new ≡ clause_at d s.now code.old top nest t }
{
    if d == 0 {
        return Err(Fault {
            reason: NO_ROOM,
            place: t.start,
        });
    }
    let first = Token {
        kind: t.kind,
        start: t.start,
        end: t.end,
    };
    let q = expression(s, code, top, 0, ANY, 0, nest, first, d - 1)?;
    tested(s, code, q.top, nest, q.sort, q.place, q.next, d - 1)
}

// The rest of a clause behind its test.
#[cycle(clause_clauses_nested_program_tested_value)]
fn tested(
    s: &[u8],
    code: &mut [u32],
    top: usize,
    nest: usize,
    sort: usize,
    place: usize,
    t: Token,
    d: usize,
) -> Result<Found, Fault>
    ensures { ran result code.new ≡ tested_at d s.now code.old top nest sort place t }
{
    if d == 0 {
        return Err(Fault {
            reason: NO_ROOM,
            place: t.start,
        });
    }
    if is_fit(TEST, sort) {
        let u = write_word(code, top, TEST, sort, place);
        if t.kind == kind::ARROW {
            let n = token_at(s, kind::IN_FIELD, t.end);
            return value(s, code, u, nest, n, d - 1);
        }
        return ended(s, code, u, syntax::PLAIN, t);
    }
    unexpected(t)
}

// A clause's value.
#[cycle(clause_clauses_nested_program_tested_value)]
fn value(
    s: &[u8],
    code: &mut [u32],
    top: usize,
    nest: usize,
    t: Token,
    d: usize,
) -> Result<Found, Fault>
    ensures { ran result code.new ≡ value_at d s.now code.old top nest t }
{
    if d == 0 {
        return Err(Fault {
            reason: NO_ROOM,
            place: t.start,
        });
    }
    if t.kind == kind::OPEN_BRACE {
        return nested(s, code, top, nest, t, d - 1);
    }
    let first = Token {
        kind: t.kind,
        start: t.start,
        end: t.end,
    };
    let q = expression(s, code, top, 3, TEXT, 0, nest, first, d - 1)?;
    valued(s, code, q.top, q.sort, q.place, q.next)
}

// The bracket t with the program that it holds, and the end of the clause.
#[cycle(clause_clauses_nested_program_tested_value)]
fn nested(
    s: &[u8],
    code: &mut [u32],
    top: usize,
    nest: usize,
    t: Token,
    d: usize,
) -> Result<Found, Fault>
    ensures { ran result code.new ≡ nested_at d s.now code.old top nest t }
{
    if d == 0 {
        return Err(Fault {
            reason: NO_ROOM,
            place: t.start,
        });
    }
    if MOST_BRACKETS <= nest {
        return Err(Fault {
            reason: OVER_LIMIT,
            place: t.start,
        });
    }
    let n = token_at(s, kind::IN_FIELD, t.end);
    let q = program(s, code, top, nest + 1, n, d - 1)?;
    let e = token_at(s, kind::IN_FIELD, q.next.end);
    ended(s, code, q.top, syntax::NESTED, e)
}

// A program whose code ends at `top`, with the token t behind it.
fn last(nest: usize, top: usize, t: Token) -> Result<Found, Fault>
    ensures { result ≡ last_at nest top t }
{
    if is_stop(nest, t.kind) {
        return Ok(Found {
            sort: TEST,
            place: 0,
            top,
            next: t,
        });
    }
    unexpected(t)
}

// A program that begins with the token t.
#[cycle(clause_clauses_nested_program_tested_value)]
fn program(
    s: &[u8],
    code: &mut [u32],
    top: usize,
    nest: usize,
    t: Token,
    d: usize,
) -> Result<Found, Fault>
    ensures { ran result code.new ≡ program_at d s.now code.old top nest t }
{
    if d == 0 {
        return Err(Fault {
            reason: NO_ROOM,
            place: t.start,
        });
    }
    let u = push(code, top, syntax::BEGIN, 0);
    clauses(s, code, u, nest, t, d - 1)
}

// Clauses up to the end of the program.
#[cycle(clause_clauses_nested_program_tested_value)]
fn clauses(
    s: &[u8],
    code: &mut [u32],
    from: usize,
    nest: usize,
    first: Token,
    d: usize,
) -> Result<Found, Fault>
    ensures { ran result code.new ≡ clauses_at d s.now code.old from nest first }
{
    if d == 0 {
        return Err(Fault {
            reason: NO_ROOM,
            place: first.start,
        });
    }
    let mut top = from;
    let mut t = first;
    // Kept: a turn goes on behind a clause, so there is no range to go over.
    while t.start < s.len() {
        if is_stop(nest, t.kind) {
            return Ok(Found {
                sort: TEST,
                place: 0,
                top,
                next: t,
            });
        }
        let q = clause(s, code, top, nest, t, d - 1)?;
        if q.next.start <= t.start {
            return Err(Fault {
                reason: NO_ROOM,
                place: t.start,
            });
        }
        top = q.top;
        t = q.next;
    }
    last(nest, top, t)
}

// How many bytes a text has from a place on.
pub fn bytes_left(s: &[u8], at: usize) -> usize
    ensures { result ≡ length s.now - at }
{
    if s.len() <= at {
        return 0;
    }
    s.len() - at
}

// Reads a Conditions field from the token behind its label on, and writes its code from `top` on. It asks for room for an entry for each
// byte from that token on, and writes nothing where there is less.
pub fn conditions(s: &[u8], code: &mut [u32], top: usize, t: Token) -> Result<Found, Fault>
    ensures { ran result code.new ≡ conditions_at s.now code.old top t }
{
    if code.len() < top {
        return Err(Fault {
            reason: NO_ROOM,
            place: t.start,
        });
    }
    if code.len() - top < bytes_left(s, t.start) {
        return Err(Fault {
            reason: NO_ROOM,
            place: t.start,
        });
    }
    program(s, code, top, 0, t, DEPTH)
}
