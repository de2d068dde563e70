// Expressions: operands and the operators between them. Each function is given a depth, which falls at every call.
ghost use Rattle.std.specs.Prelude.{◌≡◌};
ghost use Rattle.conditions.specs.Working.Emit.{ran};
ghost use Rattle.conditions.specs.Working.Expression.{expr_at, operand_at, prefixed_at, bracketed_at, chain_at, joined_at};

use crate::emit::{Found, closed, finish, finish_prefix, unexpected, write_word_for};
use crate::leaf::leaf;
use crate::table::{
    NONE, inside_level, is_allowed, is_loose, operand_level, operand_want, operator_of,
    prefix_operator, right_level, right_want,
};
use lexical::kind;
use lexical::line::token_at;
use lexical::token::Token;
use limits::{MOST_BRACKETS, MOST_PREFIXES};
use syntax::fault::{Fault, NO_ROOM, OVER_LIMIT};

// An operand and what operators of this level or above join to it.
#[cycle(bracketed_chain_expression_joined_operand_prefixed)]
pub fn expression(
    s: &[u8],
    code: &mut [u32],
    top: usize,
    level: u8,
    want: usize,
    row: usize,
    nest: usize,
    t: Token,
    d: usize,
) -> Result<Found, Fault>
    ensures { ran result code.new ≡ expr_at d s.now code.old top level want row nest t }
{
    if d == 0 {
        return Err(Fault {
            reason: NO_ROOM,
            place: t.start,
        });
    }
    let q = operand(s, code, top, want, row, nest, t, d - 1)?;
    chain(s, code, q.top, level, nest, q.sort, q.place, q.next, d - 1)
}

// One operand.
#[cycle(bracketed_chain_expression_joined_operand_prefixed)]
fn operand(
    s: &[u8],
    code: &mut [u32],
    top: usize,
    want: usize,
    row: usize,
    nest: usize,
    t: Token,
    d: usize,
) -> Result<Found, Fault>
    ensures { ran result code.new ≡ operand_at d s.now code.old top want row nest t }
{
    if d == 0 {
        return Err(Fault {
            reason: NO_ROOM,
            place: t.start,
        });
    }
    if is_allowed(want, t.kind) {
        let o = prefix_operator(t.kind);
        if o != NONE {
            return prefixed(s, code, top, o, want, row, nest, t, d - 1);
        }
        if t.kind == kind::OPEN {
            return bracketed(s, code, top, want, nest, t, d - 1);
        }
        return leaf(s, code, top, want, t);
    }
    unexpected(t)
}

// The prefix operator t with its operand.
#[cycle(bracketed_chain_expression_joined_operand_prefixed)]
fn prefixed(
    s: &[u8],
    code: &mut [u32],
    top: usize,
    op: u32,
    want: usize,
    row: usize,
    nest: usize,
    t: Token,
    d: usize,
) -> Result<Found, Fault>
    ensures { ran result code.new ≡ prefixed_at d s.now code.old top op want row nest t }
{
    if d == 0 {
        return Err(Fault {
            reason: NO_ROOM,
            place: t.start,
        });
    }
    if MOST_PREFIXES <= row {
        return Err(Fault {
            reason: OVER_LIMIT,
            place: t.start,
        });
    }
    let n = token_at(s, kind::IN_FIELD, t.end);
    let l = operand_level(op);
    let w = operand_want(op, want);
    let first = Token {
        kind: n.kind,
        start: n.start,
        end: n.end,
    };
    let q = expression(s, code, top, l, w, row + 1, nest, first, d - 1)?;
    finish_prefix(code, q.top, op, q.sort, q.place, q.next)
}

// The bracket t with what it holds.
#[cycle(bracketed_chain_expression_joined_operand_prefixed)]
fn bracketed(
    s: &[u8],
    code: &mut [u32],
    top: usize,
    want: usize,
    nest: usize,
    t: Token,
    d: usize,
) -> Result<Found, Fault>
    ensures { ran result code.new ≡ bracketed_at d s.now code.old top want nest t }
{
    if d == 0 {
        return Err(Fault {
            reason: NO_ROOM,
            place: t.start,
        });
    }
    if MOST_BRACKETS <= nest {
        return Err(Fault {
            reason: OVER_LIMIT,
            place: t.start,
        });
    }
    let n = token_at(s, kind::IN_FIELD, t.end);
    let l = inside_level(want);
    let first = Token {
        kind: n.kind,
        start: n.start,
        end: n.end,
    };
    let q = expression(s, code, top, l, want, 0, nest + 1, first, d - 1)?;
    closed(s, q.sort, q.place, q.top, q.next)
}

// What operators of this level or above join to an operand, from left to right.
#[cycle(bracketed_chain_expression_joined_operand_prefixed)]
fn chain(
    s: &[u8],
    code: &mut [u32],
    from: usize,
    level: u8,
    nest: usize,
    before: usize,
    spot: usize,
    first: Token,
    d: usize,
) -> Result<Found, Fault>
    ensures { ran result code.new ≡ chain_at d s.now code.old from level nest before spot first }
{
    if d == 0 {
        return Err(Fault {
            reason: NO_ROOM,
            place: first.start,
        });
    }
    let mut sort = before;
    let mut place = spot;
    let mut top = from;
    let mut t = first;
    // Kept: a turn goes on behind an operand, so there is no range to go over.
    while t.start < s.len() {
        let o = operator_of(sort, t.kind);
        if is_loose(level, o) {
            return Ok(Found {
                sort,
                place,
                top,
                next: t,
            });
        }
        let q = joined(s, code, top, o, nest, sort, place, t.end, d - 1)?;
        if q.next.start <= t.start {
            return Err(Fault {
                reason: NO_ROOM,
                place: t.start,
            });
        }
        sort = q.sort;
        place = q.place;
        top = q.top;
        t = q.next;
    }
    Ok(Found {
        sort,
        place,
        top,
        next: t,
    })
}

// The right operand of an operator that ends at `at`, and the operator. Its first token is built anew: a copy of the whole would wait for
// the stores of its parts.
#[cycle(bracketed_chain_expression_joined_operand_prefixed)]
fn joined(
    s: &[u8],
    code: &mut [u32],
    top: usize,
    op: u32,
    nest: usize,
    sort: usize,
    place: usize,
    at: usize,
    d: usize,
) -> Result<Found, Fault>
    ensures { ran result code.new ≡ joined_at d s.now code.old top op nest sort place at }
{
    if d == 0 {
        return Err(Fault {
            reason: NO_ROOM,
            place: at,
        });
    }
    let u = write_word_for(code, top, op, sort, place);
    let n = token_at(s, kind::IN_FIELD, at);
    let l = right_level(op);
    let v = right_want(op);
    let right = Token {
        kind: n.kind,
        start: n.start,
        end: n.end,
    };
    let q = expression(s, code, u, l, v, 0, nest, right, d - 1)?;
    finish(code, q.top, op, q.sort, q.place, q.next)
}
