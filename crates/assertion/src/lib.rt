// An assertion: its fields read from left to right, its principals entered into the index, its Conditions judged.
#![tactic(auto)]

pub mod field;
mod label;

ghost use Rattle.std.specs.Prelude.{◌≡◌};
ghost use Rattle.assertion.specs.Labels.{without};
ghost use Rattle.assertion.specs.Read.{first};
ghost use Rattle.assertion.specs.Working.Field.{given, tabled, moved, field_at};
ghost use Rattle.assertion.specs.Working.Reading.{read_by, finished_by, kept_in, finished_in, signed_in, last_at, last_in, fields_in, read_in};

use crate::field::{Partial, Went, field};
use crate::label::{is_free, use_label};
use compliance::machine::TOP;
use fields::out::is_ending;
use fields::signature::signature;
use index::Index;
use lexical::kind;
use lexical::line::token_at;
use lexical::token::Token;
use naming::code::push;
use naming::fault::{clear, earlier};
use syntax::fault::{Fault, UNVERIFIED, WRONG_LINE, misplaced};

// What is kept of an assertion: its authorizer's number, the ends of the index and of the code, and the rank of its Conditions.
#[derive(Clone, Copy)]
pub struct Assessed {
    pub author: usize,
    pub index: Index,
    pub size: usize,
    pub rank: u8,
}

// A kept assertion. Missing Licensees are an instruction of their own.
fn kept(code: &mut [u16], d: Partial) -> Result<Assessed, Fault>
    ensures { finished_by result code.new ≡ kept_in code.old d }
{
    let size = if d.licensed {
        d.size
    } else {
        push(code, d.size, TOP)
    };
    Ok(Assessed {
        author: d.author,
        index: d.index,
        size,
        rank: d.rank,
    })
}

// The end of what is read. What is against the identifiers counts only here, in a text that is otherwise well formed.
fn finished(code: &mut [u16], d: Partial, end: usize) -> Result<Assessed, Fault>
    ensures { finished_by result code.new ≡ finished_in code.old d end }
{
    if !d.authored {
        return Err(Fault {
            reason: WRONG_LINE,
            place: end,
        });
    }
    let f = earlier(d.against, d.besides);
    if f.reason != 0 {
        return Err(f);
    }
    kept(code, d)
}

// Signature, whose first token is t: nothing is read behind it.
fn signed(s: &[u8], code: &mut [u16], d: Partial, t: Token) -> Result<Assessed, Fault>
    ensures { finished_by result code.new ≡ signed_in s.now code.old d t }
{
    let next = signature(s, t)?;
    finished(code, d, next.end)
}

// Is t's field none that is read on from: the end, no label, a label that may not stand here, or Signature?
#[tactic(auto, using(text::specs::Choice::tests), unfolding(crate::specs::Working::Reading::last_at))]
fn is_last(free: &[u8], k: usize) -> bool
    ensures { result ≡ last_at free.now k }
{
    k == kind::END || !is_ending(k) || !is_free(free, k) || k == kind::SIGNATURE
}

// What comes of an assertion where t is the last to be looked at.
fn last(s: &[u8], free: &[u8], code: &mut [u16], d: Partial, t: Token) -> Result<Assessed, Fault>
    ensures { finished_by result code.new ≡ last_in s.now free.now code.old d t }
{
    if t.kind == kind::END {
        return finished(code, d, t.start);
    }
    if !is_ending(t.kind) {
        return Err(misplaced(t));
    }
    if !is_free(free, t.kind) {
        return Err(Fault {
            reason: WRONG_LINE,
            place: t.start,
        });
    }
    let n = token_at(s, kind::mode_of(t.kind), t.end);
    signed(s, code, d, n)
}

// The field behind the label t.
fn next_field(
    free: &mut [u8],
    s: &[u8],
    standing: u8,
    query: &[u8],
    values: &[usize],
    names: &[usize],
    consts: &mut [u8],
    start: usize,
    constants: &mut [usize],
    pool: &mut [u8],
    places: &mut [usize],
    code: &mut [u16],
    d: Partial,
    t: Token,
) -> Result<Went, Fault>
    ensures code_after { moved result (tabled consts.new constants.new pool.new places.new code.new) ≡ field_at (given s.now standing query.now values.now names.now start) t.kind (tabled consts.old constants.old pool.old places.old code.old) d (first s.now t) }
    ensures free_after { free.new ≡ without free.old t.kind }
{
    use_label(free, t.kind);
    let n = token_at(s, kind::mode_of(t.kind), t.end);
    field(
        t.kind, s, standing, query, values, names, consts, start, constants, pool, places, code, d,
        n,
    )
}

// The fields from the label t on.
fn fields(
    free: &mut [u8],
    s: &[u8],
    standing: u8,
    query: &[u8],
    values: &[usize],
    names: &[usize],
    consts: &mut [u8],
    start: usize,
    constants: &mut [usize],
    pool: &mut [u8],
    places: &mut [usize],
    code: &mut [u16],
    partial: Partial,
    from: Token,
) -> Result<Assessed, Fault>
    ensures { read_by result (tabled consts.new constants.new pool.new places.new code.new) ≡ fields_in (given s.now standing query.now values.now names.now start) free.old (tabled consts.old constants.old pool.old places.old code.old) partial from }
{
    let mut d = partial;
    let mut t = from;
    // Kept: a turn goes on behind a field, so there is no range to go over.
    loop {
        if is_last(free, t.kind) {
            return last(s, free, code, d, t);
        }
        let more = next_field(
            free, s, standing, query, values, names, consts, start, constants, pool, places, code,
            d, t,
        )?;
        d = more.partial;
        t = more.next;
    }
}

// The assertion s of that standing. Its constants go into `consts` from `start` on, its principals into the index, its licensees' program
// into `code` from `size` on; `top` is the rank of missing Conditions.
pub fn read(
    s: &[u8],
    standing: u8,
    top: u8,
    query: &[u8],
    values: &[usize],
    names: &[usize],
    consts: &mut [u8],
    start: usize,
    constants: &mut [usize],
    pool: &mut [u8],
    places: &mut [usize],
    index: Index,
    code: &mut [u16],
    size: usize,
) -> Result<Assessed, Fault>
    ensures { read_by result (tabled consts.new constants.new pool.new places.new code.new) ≡ read_in (given s.now standing query.now values.now names.now start) top (tabled consts.old constants.old pool.old places.old code.old) index.count index.end size }
{
    if standing == 0 {
        return Err(Fault {
            reason: UNVERIFIED,
            place: 0,
        });
    }
    let mut free = [0u8, 0, 0, 0, 1, 1, 1, 1, 1, 1, 1];
    let d = Partial {
        authored: false,
        author: 0,
        licensed: false,
        rank: top,
        known: 0,
        index,
        size,
        against: clear(),
        besides: clear(),
    };
    let t = token_at(s, kind::BEFORE, 0);
    fields(
        &mut free, s, standing, query, values, names, consts, start, constants, pool, places, code,
        d, t,
    )
}
