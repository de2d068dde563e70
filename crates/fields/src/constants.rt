// Local-Constants: each constant goes into a lent buffer as two strings behind their lengths, its name and its value, and the place of its name
// into a lent table.
ghost use Rattle.std.specs.Prelude.{◌≡◌, length};
ghost use Rattle.text.specs.Copy.{copied};
ghost use Rattle.lexical.specs.Literal.{decoded_at};
ghost use Rattle.index.specs.Working.Adding.{counted_into, entered};
ghost use Rattle.fields.specs.Constants.{reserved};
ghost use Rattle.fields.specs.Working.Setting.{taken_in, constant_fault_in, refused_settings, store_in, value_in, assigned_in, stored, constants_in};

use crate::out::{is_ending, word};
use crate::signature::is_fitting;
use expression::name::find;
use index::Index;
use lexical::kind;
use lexical::line::token_at;
use lexical::literal::{decode_into, literal_length};
use lexical::token::Token;
use limits::MOST_CONSTANTS;
use syntax::fault::{Fault, NO_ROOM, OVER_LIMIT, WRONG_NAME, misplaced, refusal_of};

// The index of the constants and the token behind them.
#[derive(Clone, Copy)]
pub struct Settings {
    pub index: Index,
    pub next: Token,
}

fn refused(t: Token) -> Result<Settings, Fault>
    ensures { result ≡ refused_settings t }
{
    Err(misplaced(t))
}

// Does the name start with "_"?
fn is_reserved(name: &[u8]) -> bool
    ensures { result ≡ reserved name.now }
{
    if name.len() == 0 {
        return false;
    }
    name[0] == 95
}

// Has one of the first `count` constants that name?
fn is_taken(consts: &[u8], places: &[usize], count: usize, name: &[u8]) -> bool
    ensures { result ≡ taken_in consts.now places.now count name.now }
{
    if places.len() < count {
        return false;
    }
    let i = find(consts, &places[..count], name);
    i < count
}

// The reason against t as the name of one more constant, or 0.
fn name_fault(s: &[u8], consts: &[u8], places: &[usize], count: usize, t: Token) -> usize
    ensures { result ≡ constant_fault_in s.now consts.now places.now count t }
{
    if t.kind != kind::NAME {
        return refusal_of(t.kind);
    }
    let name = word(s, t);
    if is_reserved(name) {
        return WRONG_NAME;
    }
    if is_taken(consts, places, count, name) {
        return WRONG_NAME;
    }
    0
}

// Puts what the literal at `start` gives, n bytes, behind its two-byte length into buf at a place; where there is no room, nothing is written.
fn put_literal(s: &[u8], start: usize, n: usize, buf: &mut [u8], at: usize) -> bool
    requires { n ≡ length (decoded_at s.now start) }
    ensures { copied result buf.new ≡ counted_into buf.old at (decoded_at s.now start) }
{
    if 65535 < n {
        return false;
    }
    if buf.len() < at {
        return false;
    }
    if buf.len() - at < 2 {
        return false;
    }
    if decode_into(s, start, buf, at + 2) {
        text::put_pair(buf, at, n);
        return true;
    }
    false
}

// Stores a constant: its name, and behind it what the literal at `start` gives.
fn store(
    s: &[u8],
    consts: &mut [u8],
    places: &mut [usize],
    index: Index,
    name: &[u8],
    start: usize,
) -> Option<Index>
    ensures { entered result consts.new places.new ≡ store_in consts.old places.old index.count index.end name.now (decoded_at s.now start) }
{
    let named = index::append(consts, places, index, name)?;
    let n = literal_length(s, start);
    if put_literal(s, start, n, consts, named.end) {
        return Some(Index {
            count: named.count,
            end: named.end + 2 + n,
        });
    }
    None
}

// The value v of the constant whose name is t.
fn valued(
    s: &[u8],
    consts: &mut [u8],
    places: &mut [usize],
    index: Index,
    t: Token,
    v: Token,
) -> Result<Settings, Fault>
    ensures { stored result consts.new places.new ≡ value_in s.now consts.old places.old index.count index.end t v }
{
    if v.kind != kind::LITERAL {
        return refused(v);
    }
    if !is_fitting(s, v) {
        return Err(Fault {
            reason: OVER_LIMIT,
            place: v.start,
        });
    }
    let name = word(s, t);
    match store(s, consts, places, index, name, v.start) {
        None => Err(Fault {
            reason: NO_ROOM,
            place: 0,
        }),
        Some(index) => Ok(Settings {
            index,
            next: token_at(s, kind::IN_FIELD, v.end),
        }),
    }
}

// The constant whose name is t, behind that name.
fn assigned(
    s: &[u8],
    consts: &mut [u8],
    places: &mut [usize],
    index: Index,
    t: Token,
) -> Result<Settings, Fault>
    ensures { stored result consts.new places.new ≡ assigned_in s.now consts.old places.old index.count index.end t }
{
    let a = token_at(s, kind::IN_FIELD, t.end);
    if a.kind != kind::ASSIGN {
        return refused(a);
    }
    let v = token_at(s, kind::IN_FIELD, a.end);
    valued(s, consts, places, index, t, v)
}

// The field whose first token is t. The constants go into `consts` from `start` on.
pub fn constants(
    s: &[u8],
    consts: &mut [u8],
    places: &mut [usize],
    start: usize,
    from: Token,
) -> Result<Settings, Fault>
    ensures { stored result consts.new places.new ≡ constants_in s.now consts.old places.old 0 start from }
{
    let mut index = Index {
        count: 0,
        end: start,
    };
    let mut t = from;
    // Kept: a turn goes on behind an assignment, so there is no range to go over.
    loop {
        if is_ending(t.kind) {
            return Ok(Settings { index, next: t });
        }
        let f = name_fault(s, consts, places, index.count, t);
        if f != 0 {
            return Err(Fault {
                reason: f,
                place: t.start,
            });
        }
        if MOST_CONSTANTS <= index.count {
            return Err(Fault {
                reason: OVER_LIMIT,
                place: t.start,
            });
        }
        let set = assigned(s, consts, places, index, t)?;
        index = Index {
            count: index.count + 1,
            end: set.index.end,
        };
        t = set.next;
    }
}
