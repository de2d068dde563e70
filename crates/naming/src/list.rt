// Licensees one by one and in lists, written as instructions.
ghost use Rattle.std.specs.Prelude.{◌≡◌, true, ◌-◌, ◌<◌};
ghost use Rattle.lexical.specs.Kind;
ghost use Rattle.lexical.specs.Token.{token};
ghost use Rattle.naming.specs.Working.Whole.{whole_at};
ghost use Rattle.naming.specs.String.{plain_from, nest_of};
ghost use Rattle.naming.specs.Working.Identifying.{sight, of_number};
ghost use Rattle.naming.specs.Working.List.{ran, refused_licensed, items_of, listed_in, placed_in, before_in, literal_in, Leads, is_over, string_in, licensee_in, list_in, opened_in, threshold_in, wrote};

use crate::code::{push, rest};
use crate::fault::{earlier, fault_at};
use crate::identifier::{Named, is_plain, plain_named, string_named};
use crate::whole::is_whole;
use compliance::machine as instruction;
use conditions::table::is_string;
use expression::name::Scope;
use index::{Index, Numbered, enter};
use lexical::kind;
use lexical::line::token_at;
use lexical::number::number_at;
use lexical::token::Token;
use limits::{MOST_BRACKETS, MOST_LICENSEES};
use syntax::fault::{Fault, NO_ROOM, OUT_OF_RANGE, OVER_LIMIT, UNIDENTIFIED, misplaced};

// The index, the end of the code, how many licensees were read, and the first that is nobody.
#[derive(Clone, Copy)]
pub struct State {
    pub index: Index,
    pub size: usize,
    pub listed: usize,
    pub fault: Fault,
}

// The state and the token behind what was read.
#[derive(Clone, Copy)]
pub struct Licensed {
    pub state: State,
    pub next: Token,
}

pub fn refused(t: Token) -> Result<Licensed, Fault>
    ensures { result ≡ refused_licensed t }
{
    Err(misplaced(t))
}

fn narrow(n: usize) -> u16
    requires { n < 32768 }
    ensures { result ≡ n }
{
    n as u16
}

fn byte(n: usize) -> u8
    requires { n < 256 }
    ensures { result ≡ n }
{
    n as u8
}

fn small(k: u64) -> u8
    requires { k < 256 }
    ensures { result ≡ k }
{
    k as u8
}

// The first token from `first` on that is no bracket, where so many more brackets may be opened.
pub(crate) fn plain_from(s: &[u8], first: Token, most: usize) -> Token
    ensures { result ≡ plain_from most s.now first }
{
    let mut left = most;
    let mut t = first;
    // Kept: a turn goes on behind a token, and what is left is what the caller counts.
    while left != 0 {
        if t.kind != kind::OPEN {
            return t;
        }
        t = token_at(s, kind::IN_FIELD, t.end);
        left -= 1;
    }
    t
}

// How many brackets are open where so many more may be opened.
pub fn nest_of(left: usize) -> usize
    ensures { result ≡ nest_of left }
{
    if MOST_BRACKETS <= left {
        return 0;
    }
    MOST_BRACKETS - left
}

// Behind so many licensees, is one whose first token that is no bracket is of this kind one too many?
fn is_over(listed: usize, k: usize) -> bool
    ensures { result ≡ is_over listed k }
{
    if listed < MOST_LICENSEES {
        return false;
    }
    is_string(k)
}

// Writes a licensee named as e, whose first token that is no bracket stands at that place. POLICY stands in for one that is nobody.
fn placed(
    code: &mut [u16],
    st: State,
    place: usize,
    e: Result<Named, Fault>,
) -> Result<Licensed, Fault>
    ensures { wrote result code.new ≡ placed_in code.old st place e }
{
    match e? {
        Named::Nobody { next } => {
            if MOST_LICENSEES <= st.listed {
                return Err(Fault {
                    reason: NO_ROOM,
                    place: 0,
                });
            }
            let index = st.index;
            let first = st.fault;
            let fault = earlier(first, fault_at(UNIDENTIFIED, place));
            let size = push(code, st.size, 0);
            Ok(Licensed {
                state: State {
                    index,
                    size,
                    listed: st.listed + 1,
                    fault,
                },
                next,
            })
        }
        Named::At {
            number,
            index,
            next,
        } => {
            if MOST_LICENSEES <= st.listed {
                return Err(Fault {
                    reason: NO_ROOM,
                    place: 0,
                });
            }
            if 32768 <= number {
                return Err(Fault {
                    reason: NO_ROOM,
                    place: 0,
                });
            }
            let fault = st.fault;
            let size = push(code, st.size, narrow(number));
            Ok(Licensed {
                state: State {
                    index,
                    size,
                    listed: st.listed + 1,
                    fault,
                },
                next,
            })
        }
    }
}

// The same of a principal entered as e, before the token n. That is built anew: a copy of the whole would wait for the stores of its parts.
fn placed_number(
    code: &mut [u16],
    st: State,
    n: Token,
    e: Option<Numbered>,
) -> Result<Licensed, Fault>
    requires { st.listed < 16 }
    ensures { wrote result code.new ≡ placed_in code.old st 0 (of_number n e) }
{
    match e {
        None => Err(Fault {
            reason: NO_ROOM,
            place: 0,
        }),
        Some(Numbered { count, number, end }) => {
            if 32768 <= number {
                return Err(Fault {
                    reason: NO_ROOM,
                    place: 0,
                });
            }
            let fault = st.fault;
            let size = push(code, st.size, narrow(number));
            Ok(Licensed {
                state: State {
                    index: Index { count, end },
                    size,
                    listed: st.listed + 1,
                    fault,
                },
                next: Token {
                    kind: n.kind,
                    start: n.start,
                    end: n.end,
                },
            })
        }
    }
}

// The licensee that is the name from `start` to `stop` alone, before a token. Both are handed over in parts: a copy of a whole one would wait for the
// stores of its parts.
pub(crate) fn name_before(
    s: &[u8],
    scope: &Scope,
    pool: &mut [u8],
    places: &mut [usize],
    code: &mut [u16],
    st: State,
    start: usize,
    stop: usize,
    then: usize,
    from: usize,
    to: usize,
) -> Result<Licensed, Fault>
    ensures { ran result pool.new places.new code.new ≡ before_in s.now (sight scope.now.query.now scope.now.consts.now scope.now.values.now scope.now.names.now scope.now.constants.now) pool.old places.old code.old st (token Kind.NAME start stop) (token then from to) }
{
    if MOST_LICENSEES <= st.listed {
        return Err(Fault {
            reason: OVER_LIMIT,
            place: start,
        });
    }
    let t = Token {
        kind: kind::NAME,
        start,
        end: stop,
    };
    let n = Token {
        kind: then,
        start: from,
        end: to,
    };
    let e = plain_named(s, scope, pool, places, st.index, t, n);
    placed(code, st, start, e)
}

// The licensee that is the clear literal from `start` to `stop` alone, before a token; it looks nothing up.
pub(crate) fn literal_before(
    s: &[u8],
    pool: &mut [u8],
    places: &mut [usize],
    code: &mut [u16],
    st: State,
    start: usize,
    stop: usize,
    then: usize,
    from: usize,
    to: usize,
) -> Result<Licensed, Fault>
    requires { whole_at s.now start stop ≡ true }
    ensures { ran result pool.new places.new code.new ≡ literal_in s.now pool.old places.old code.old st start stop (token then from to) }
{
    if MOST_LICENSEES <= st.listed {
        return Err(Fault {
            reason: OVER_LIMIT,
            place: start,
        });
    }
    let n = Token {
        kind: then,
        start: from,
        end: to,
    };
    let e = enter(pool, places, st.index, &s[start + 1..stop - 1]);
    placed_number(code, st, n, e)
}

// The licensee whose first token is t, any string; `left` more brackets may be opened.
fn string_licensee(
    s: &[u8],
    scope: &Scope,
    pool: &mut [u8],
    places: &mut [usize],
    code: &mut [u16],
    st: State,
    t: Token,
    left: usize,
) -> Result<Licensed, Fault>
    ensures { ran result pool.new places.new code.new ≡ string_in s.now (sight scope.now.query.now scope.now.consts.now scope.now.values.now scope.now.names.now scope.now.constants.now) pool.old places.old code.old st left t }
{
    let p = plain_from(s, t, left);
    if is_over(st.listed, p.kind) {
        return Err(Fault {
            reason: OVER_LIMIT,
            place: p.start,
        });
    }
    let nest = nest_of(left);
    let e = string_named(s, scope, pool, places, st.index, t, nest);
    placed(code, st, p.start, e)
}

// The licensee whose first token is t; `left` more brackets may be opened.
pub fn licensee(
    s: &[u8],
    scope: &Scope,
    pool: &mut [u8],
    places: &mut [usize],
    code: &mut [u16],
    st: State,
    t: Token,
    left: usize,
) -> Result<Licensed, Fault>
    ensures { ran result pool.new places.new code.new ≡ licensee_in s.now (sight scope.now.query.now scope.now.consts.now scope.now.values.now scope.now.names.now scope.now.constants.now) pool.old places.old code.old st left t }
{
    if is_plain(s, t) {
        let n = token_at(s, kind::IN_FIELD, t.end);
        if n.kind == kind::DOT {
            return string_licensee(s, scope, pool, places, code, st, t, left);
        }
        if t.kind != kind::NAME {
            return literal_before(
                s, pool, places, code, st, t.start, t.end, n.kind, n.start, n.end,
            );
        }
        return name_before(
            s, scope, pool, places, code, st, t.start, t.end, n.kind, n.start, n.end,
        );
    }
    string_licensee(s, scope, pool, places, code, st, t, left)
}

// How many licensees were read since there were `before`; 0 where that is no list's length.
fn items(before: usize, listed: usize) -> usize
    ensures value { result ≡ items_of before listed }
    ensures upper_bound { result < 17 }
{
    if listed < before {
        return 0;
    }
    if MOST_LICENSEES < listed - before {
        return 0;
    }
    listed - before
}

// The end of the list of a K-of at the closing bracket t; there were `before` licensees before it.
fn list_end(
    s: &[u8],
    code: &mut [u16],
    k: u8,
    before: usize,
    st: State,
    t: Token,
) -> Result<Licensed, Fault>
    ensures { wrote result code.new ≡ listed_in s.now code.old k before st t }
{
    let n = byte(items(before, st.listed));
    if n < k {
        return Err(Fault {
            reason: OUT_OF_RANGE,
            place: t.start,
        });
    }
    let index = st.index;
    let fault = st.fault;
    let size = push(code, st.size, instruction::k_of(k, n));
    let next = token_at(s, kind::IN_LICENSEES, t.end);
    Ok(Licensed {
        state: State {
            index,
            size,
            listed: st.listed,
            fault,
        },
        next,
    })
}

// Reads on past the clear literals from `from` on that have a comma behind them: the rest of the list gives what all of it gives. It looks nothing up, so
// it is the quickest way through a list.
fn literals(
    s: &[u8],
    pool: &mut [u8],
    places: &mut [usize],
    code: &mut [u16],
    st: State,
    from: Token,
) -> Result<Licensed, Fault>
    ensures { Leads s.now pool.old places.old code.old st from (ran result pool.new places.new code.new) }
{
    let mut state = st;
    let mut t = from;
    // Kept: a turn goes on behind a literal, so there is no range to go over.
    loop {
        if !is_whole(s, t) {
            return Ok(Licensed { state, next: t });
        }
        let n = token_at(s, kind::IN_FIELD, t.end);
        if n.kind != kind::COMMA {
            return Ok(Licensed { state, next: t });
        }
        let one = literal_before(
            s, pool, places, code, state, t.start, t.end, n.kind, n.start, n.end,
        )?;
        let u = one.state;
        if rest(state.listed) <= rest(u.listed) {
            return Err(Fault {
                reason: NO_ROOM,
                place: 0,
            });
        }
        state = u;
        t = token_at(s, kind::IN_LICENSEES, n.end);
    }
}

// A K-of's number, how many licensees stood before its list, and how many more brackets may be opened in it.
#[derive(Clone, Copy)]
struct Listing {
    k: u8,
    before: usize,
    left: usize,
}

// The list of a K-of, from a licensee on.
fn list(
    s: &[u8],
    scope: &Scope,
    pool: &mut [u8],
    places: &mut [usize],
    code: &mut [u16],
    m: Listing,
    st: State,
    from: Token,
) -> Result<Licensed, Fault>
    ensures { ran result pool.new places.new code.new ≡ list_in s.now (sight scope.now.query.now scope.now.consts.now scope.now.values.now scope.now.names.now scope.now.constants.now) m.left m.k m.before pool.old places.old code.old st from }
{
    let mut state = st;
    let mut t = from;
    // Kept: a turn goes on behind a licensee, so there is no range to go over.
    loop {
        let one = licensee(s, scope, pool, places, code, state, t, m.left)?;
        let u = one.state;
        let next = one.next;
        if next.kind == kind::CLOSE {
            return list_end(s, code, m.k, m.before, u, next);
        }
        if next.kind != kind::COMMA {
            return refused(next);
        }
        if rest(state.listed) <= rest(u.listed) {
            return Err(Fault {
                reason: NO_ROOM,
                place: 0,
            });
        }
        state = u;
        t = token_at(s, kind::IN_LICENSEES, next.end);
    }
}

// The bracket t of a K-of; `left` more brackets may be opened.
fn opened(
    s: &[u8],
    scope: &Scope,
    pool: &mut [u8],
    places: &mut [usize],
    code: &mut [u16],
    k: u8,
    st: State,
    t: Token,
    left: usize,
) -> Result<Licensed, Fault>
    ensures { ran result pool.new places.new code.new ≡ opened_in left s.now (sight scope.now.query.now scope.now.consts.now scope.now.values.now scope.now.names.now scope.now.constants.now) k pool.old places.old code.old st t }
{
    if t.kind != kind::OPEN {
        return refused(t);
    }
    if left == 0 {
        return Err(Fault {
            reason: OVER_LIMIT,
            place: t.start,
        });
    }
    let n = token_at(s, kind::IN_LICENSEES, t.end);
    let first = literals(s, pool, places, code, st, n)?;
    list(
        s,
        scope,
        pool,
        places,
        code,
        Listing {
            k,
            before: st.listed,
            left: left - 1,
        },
        first.state,
        first.next,
    )
}

// A K-of, from its number t on.
pub fn threshold(
    s: &[u8],
    scope: &Scope,
    pool: &mut [u8],
    places: &mut [usize],
    code: &mut [u16],
    st: State,
    t: Token,
    left: usize,
) -> Result<Licensed, Fault>
    ensures { ran result pool.new places.new code.new ≡ threshold_in left s.now (sight scope.now.query.now scope.now.consts.now scope.now.values.now scope.now.names.now scope.now.constants.now) pool.old places.old code.old st t }
{
    let k = number_at(s, t.start, t.end);
    if k == 0 {
        return Err(Fault {
            reason: OUT_OF_RANGE,
            place: t.start,
        });
    }
    if 16 < k {
        return Err(Fault {
            reason: OUT_OF_RANGE,
            place: t.start,
        });
    }
    let o = token_at(s, kind::IN_LICENSEES, t.end);
    if o.kind != kind::OF {
        return refused(o);
    }
    let n = token_at(s, kind::IN_LICENSEES, o.end);
    opened(s, scope, pool, places, code, small(k), st, n, left)
}
