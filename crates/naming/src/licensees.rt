// Licensees, written as a postfix program over the index of principals.
ghost use Rattle.std.specs.Prelude.{◌≡◌};
ghost use Rattle.naming.specs.Working.Identifying.{sight};
ghost use Rattle.naming.specs.Working.List.{ran};
ghost use Rattle.naming.specs.Working.Chain.{joint_of, join_of, closed_in, single, is_lone, is_longer, operand_at, more_at, chain_at, primary_at, end_in, field_in};

use crate::code::{push, rest};
use crate::fault::clear;
use crate::identifier::is_plain;
use crate::list::{Licensed, State, licensee, literal_before, name_before, refused, threshold};
use compliance::machine as instruction;
use expression::name::Scope;
use fields::out::is_ending;
use index::Index;
use lexical::kind;
use lexical::line::token_at;
use lexical::token::Token;
use limits::{MOST_BRACKETS, MOST_CODE};
use syntax::fault::{Fault, NO_ROOM, OVER_LIMIT};

// Operands are joined by && inside operands that are joined by ||.
const ALL: usize = 0;

const ANY: usize = 1;

// The token that joins operands at a level.
fn joint_of(level: usize) -> usize
    ensures { result ≡ joint_of level }
{
    if level == ALL {
        return kind::AND;
    }
    kind::OR
}

// The instruction that joins them.
fn join_of(level: usize) -> u16
    ensures { result ≡ join_of level }
{
    if level == ALL {
        return instruction::AND;
    }
    instruction::OR
}

// Past the closing bracket t.
fn closed(s: &[u8], st: State, t: Token) -> Result<Licensed, Fault>
    ensures { result ≡ closed_in s.now st t }
{
    if t.kind != kind::CLOSE {
        return refused(t);
    }
    let n = token_at(s, kind::IN_LICENSEES, t.end);
    Ok(Licensed { state: st, next: n })
}

// Is an operand of that level that begins with a token of this kind a principal, if no && follows?
fn is_single(level: usize, k: usize) -> bool
    ensures { result ≡ single level k }
{
    if level != ANY {
        return false;
    }
    if k == kind::LITERAL {
        return true;
    }
    k == kind::NAME
}

// Does a token of this kind neither join by && nor go on with a string?
fn is_lone(k: usize) -> bool
    ensures { result ≡ is_lone k }
{
    if k == kind::AND {
        return false;
    }
    if k == kind::DOT {
        return false;
    }
    true
}

// An operand of a chain of that level; `left` more brackets may be opened.
#[cycle(chain_more_operand_primary)]
fn operand(
    s: &[u8],
    scope: &Scope,
    pool: &mut [u8],
    places: &mut [usize],
    code: &mut [u16],
    st: State,
    t: Token,
    level: usize,
    left: usize,
) -> Result<Licensed, Fault>
    ensures { ran result pool.new places.new code.new ≡ operand_at left level s.now (sight scope.now.query.now scope.now.consts.now scope.now.values.now scope.now.names.now scope.now.constants.now) pool.old places.old code.old st t }
{
    if level == 0 {
        return primary(s, scope, pool, places, code, st, t, left);
    }
    if is_single(level, t.kind) {
        let n = token_at(s, kind::IN_FIELD, t.end);
        if is_lone(n.kind) {
            if is_plain(s, t) {
                if t.kind != kind::NAME {
                    return literal_before(
                        s, pool, places, code, st, t.start, t.end, n.kind, n.start, n.end,
                    );
                }
                return name_before(
                    s, scope, pool, places, code, st, t.start, t.end, n.kind, n.start, n.end,
                );
            }
        }
    }
    chain(s, scope, pool, places, code, st, t, level - 1, left)
}

// The rest of a chain behind its first operand.
#[cycle(chain_more_operand_primary)]
fn more(
    s: &[u8],
    scope: &Scope,
    pool: &mut [u8],
    places: &mut [usize],
    code: &mut [u16],
    st: State,
    from: Token,
    level: usize,
    left: usize,
) -> Result<Licensed, Fault>
    ensures { ran result pool.new places.new code.new ≡ more_at left level s.now (sight scope.now.query.now scope.now.consts.now scope.now.values.now scope.now.names.now scope.now.constants.now) pool.old places.old code.old st from }
{
    let joint = joint_of(level);
    let mut state = st;
    let mut t = from;
    // Kept: a turn goes on behind an operand, so there is no range to go over.
    while t.kind == joint {
        let n = token_at(s, kind::IN_LICENSEES, t.end);
        let one = operand(s, scope, pool, places, code, state, n, level, left)?;
        let u = one.state;
        if rest(state.listed) <= rest(u.listed) {
            return Err(Fault {
                reason: NO_ROOM,
                place: 0,
            });
        }
        let index = u.index;
        let fault = u.fault;
        let size = push(code, u.size, join_of(level));
        state = State {
            index,
            size,
            listed: u.listed,
            fault,
        };
        t = one.next;
    }
    Ok(Licensed { state, next: t })
}

// Operands joined at a level, from left to right.
#[cycle(chain_more_operand_primary)]
fn chain(
    s: &[u8],
    scope: &Scope,
    pool: &mut [u8],
    places: &mut [usize],
    code: &mut [u16],
    st: State,
    t: Token,
    level: usize,
    left: usize,
) -> Result<Licensed, Fault>
    ensures { ran result pool.new places.new code.new ≡ chain_at left level s.now (sight scope.now.query.now scope.now.consts.now scope.now.values.now scope.now.names.now scope.now.constants.now) pool.old places.old code.old st t }
{
    let one = operand(s, scope, pool, places, code, st, t, level, left)?;
    more(
        s, scope, pool, places, code, one.state, one.next, level, left,
    )
}

// Is what a bracket holds one licensee, and does a token of kind k behind the bracket begin a longer string?
fn is_longer(st: State, u: State, k: usize) -> bool
    ensures { result ≡ is_longer st u k }
{
    if k != kind::DOT {
        return false;
    }
    if u.size <= st.size {
        return false;
    }
    u.size - st.size == 1
}

// A string, a K-of or a bracket. A bracket that holds one string, a "." behind it, begins a longer string.
#[cycle(chain_more_operand_primary)]
fn primary(
    s: &[u8],
    scope: &Scope,
    pool: &mut [u8],
    places: &mut [usize],
    code: &mut [u16],
    st: State,
    t: Token,
    left: usize,
) -> Result<Licensed, Fault>
    ensures { ran result pool.new places.new code.new ≡ primary_at left s.now (sight scope.now.query.now scope.now.consts.now scope.now.values.now scope.now.names.now scope.now.constants.now) pool.old places.old code.old st t }
{
    if t.kind == kind::DIGITS {
        return threshold(s, scope, pool, places, code, st, t, left);
    }
    if t.kind != kind::OPEN {
        return licensee(s, scope, pool, places, code, st, t, left);
    }
    if left == 0 {
        return Err(Fault {
            reason: OVER_LIMIT,
            place: t.start,
        });
    }
    let n = token_at(s, kind::IN_LICENSEES, t.end);
    let held = chain(s, scope, pool, places, code, st, n, ANY, left - 1)?;
    let behind = closed(s, held.state, held.next)?;
    if is_longer(st, behind.state, behind.next.kind) {
        return licensee(s, scope, pool, places, code, st, t, left);
    }
    Ok(behind)
}

// The end of the field at t.
fn finished(st: State, t: Token) -> Result<Licensed, Fault>
    ensures { result ≡ end_in st t }
{
    if is_ending(t.kind) {
        return Ok(Licensed { state: st, next: t });
    }
    refused(t)
}

// The field whose first token is t: its program goes into `code` from `size` on.
pub fn licensees(
    s: &[u8],
    scope: &Scope,
    pool: &mut [u8],
    places: &mut [usize],
    code: &mut [u16],
    index: Index,
    size: usize,
    t: Token,
) -> Result<Licensed, Fault>
    ensures { ran result pool.new places.new code.new ≡ field_in s.now (sight scope.now.query.now scope.now.consts.now scope.now.values.now scope.now.names.now scope.now.constants.now) pool.old places.old code.old index.count index.end size t }
{
    if code.len() < size {
        return Err(Fault {
            reason: NO_ROOM,
            place: 0,
        });
    }
    if code.len() - size < MOST_CODE {
        return Err(Fault {
            reason: NO_ROOM,
            place: 0,
        });
    }
    if is_ending(t.kind) {
        let top = push(code, size, instruction::ZERO);
        return Ok(Licensed {
            state: State {
                index,
                size: top,
                listed: 0,
                fault: clear(),
            },
            next: t,
        });
    }
    let st = State {
        index,
        size,
        listed: 0,
        fault: clear(),
    };
    let all = chain(s, scope, pool, places, code, st, t, ANY, MOST_BRACKETS)?;
    finished(all.state, all.next)
}
