// The assertions of a query, one after the other.
ghost use Rattle.std.specs.Prelude.{◌≡◌, get_or, drop, ◌-◌};
ghost use Rattle.system.specs.Working.Each.{fixed, store, one_by, one_in, full, went_by, each_by, each_from};

use crate::note::{Ends, note};
use assertion::{Assessed, read};
use index::Index;
use limits::{MOST_CONSTANTS, MOST_ENTERED, MOST_LENGTHS, MOST_NAMED};
use syntax::fault::Fault;

// The byte at a place, 0 past the end.
fn byte_at(s: &[u8], at: usize) -> u8
    ensures { result ≡ get_or s.now at 0 }
{
    if s.len() <= at {
        return 0;
    }
    s[at]
}

// The standing of the assertion whose text is at a place.
fn standing_at(s: &[u8], at: usize) -> u8
    ensures { result ≡ get_or s.now (at - 3) 0 }
{
    if at < 3 {
        return byte_at(s, 0);
    }
    byte_at(s, at - 3)
}

// What is the same for all assertions of a query: its record, the places of its compliance values and of its attributes' names, the highest rank, and
// where constants begin.
#[derive(Clone, Copy)]
pub struct Shared<'a> {
    pub query: &'a [u8],
    pub values: &'a [usize],
    pub names: &'a [usize],
    pub top: u8,
    pub start: usize,
}

// The assertion at a place of the record.
fn read_one(
    shared: &Shared,
    at: usize,
    consts: &mut [u8],
    pool: &mut [u8],
    places: &mut [usize],
    code: &mut [u16],
    index: Index,
    size: usize,
) -> Result<Assessed, Fault>
    ensures { one_by result (store consts.new pool.new places.new code.new) ≡ one_in (fixed shared.now.query.now shared.now.values.now shared.now.names.now shared.now.top shared.now.start) at (store consts.old pool.old places.old code.old) index.count index.end size }
{
    let mut constants = [0usize; MOST_CONSTANTS];
    let standing = standing_at(shared.query, at);
    read(
        text::counted_at(shared.query, at),
        standing,
        shared.top,
        shared.query,
        shared.values,
        shared.names,
        consts,
        shared.start,
        &mut constants,
        pool,
        places,
        index,
        code,
        size,
    )
}

// Is a table too small for one assertion more: the constants of its text, and the longest identifiers?
fn is_full(
    consts: usize,
    start: usize,
    text: usize,
    pool: usize,
    end: usize,
    places: usize,
    count: usize,
) -> bool
    ensures { result ≡ full consts start text pool end places count }
{
    if consts < start {
        return true;
    }
    if consts - start < MOST_LENGTHS {
        return true;
    }
    if consts - start - MOST_LENGTHS < text {
        return true;
    }
    if pool < end {
        return true;
    }
    if pool - end < MOST_ENTERED {
        return true;
    }
    if places < count {
        return true;
    }
    places - count < MOST_NAMED
}

// How far the reading went, and the ends there.
#[derive(Clone, Copy)]
pub struct Stretch {
    pub next: usize,
    pub ends: Ends,
}

// The assertions whose texts are at those places, from the first on, while the tables have room for one more.
pub fn read_each(
    shared: &Shared,
    texts: &[usize],
    consts: &mut [u8],
    pool: &mut [u8],
    places: &mut [usize],
    code: &mut [u16],
    authors: &mut [u16],
    conds: &mut [u8],
    ends: &mut [u16],
    page: &mut [u8],
    first: usize,
    from: Ends,
) -> Stretch
    ensures { went_by result.next (each_by result.ends (store consts.new pool.new places.new code.new) authors.new conds.new ends.new page.new) ≡ each_from (fixed shared.now.query.now shared.now.values.now shared.now.names.now shared.now.top shared.now.start) (drop first texts.now) first (each_by from (store consts.old pool.old places.old code.old) authors.old conds.old ends.old page.old) }
{
    let mut e = from;
    for i in first..texts.len() {
        let at = texts[i];
        let index = e.index;
        let n = text::counted_at(shared.query, at).len();
        if is_full(
            consts.len(),
            shared.start,
            n,
            pool.len(),
            index.end,
            places.len(),
            index.count,
        ) {
            return Stretch { next: i, ends: e };
        }
        let r = read_one(shared, at, consts, pool, places, code, index, e.size);
        e = note(authors, conds, ends, page, i, e, r);
    }
    Stretch {
        next: first.max(texts.len()),
        ends: e,
    }
}
