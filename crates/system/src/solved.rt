// A query solved: its tables are made, filled and handed to the solver.
ghost use Rattle.std.specs.Prelude.{◌≡◌, [], ◌∷◌, length, ◌-◌, ◌%◌};
ghost use Rattle.text.specs.Copy.{copied, copy_at};
ghost use Rattle.system.specs.Working.Each.{fixed};
ghost use Rattle.system.specs.Working.Sizes.{middle, large};
ghost use Rattle.system.specs.Working.Solving.{solved_by, rows_give, grown_in, filled_in, filled_long, solved_in};

use crate::asked::{ask_all, begin as begin_index};
use crate::each::{Shared, read_each};
use crate::note::{Ends, put_header};
use assertion::field::front;
use compliance::{Solution, solve};
use constants::begin as begin_constants;
use index::Index;
use limits::{
    MOST_ASSERTIONS, MOST_CODE, MOST_CONSTS, MOST_ENTERED, MOST_POOL, MOST_PRINCIPALS,
    MOST_PROGRAMS,
};

// Tables for most queries: the two joined texts and 16 constants of a text, principals, and their identifiers.
const SOME_CONSTS: usize = 3200;

const SOME_PRINCIPALS: usize = 128;

const SOME_POOL: usize = 7168;

// Their assertions, and the instructions of the fields Licensees.
const SOME_ROWS: usize = 32;

const SOME_CODE: usize = SOME_ROWS * MOST_CODE;

// The identifiers of most long records, and those beside which there is room for an assertion's.
const MIDDLE_POOL: usize = 76800;

const MIDDLE_MOST: usize = MIDDLE_POOL - MOST_ENTERED;

// Longer records, and those with more assertions, mostly need the larger tables.
const LONG: usize = 16384;

// Copies numbers into dst at a place, and tells whether they fit; where they don't, nothing is written.
fn copy_places(dst: &mut [usize], at: usize, src: &[usize]) -> bool
    ensures { copied result dst.new ≡ copy_at dst.old at src.now }
{
    if dst.len() < at {
        return false;
    }
    if dst.len() - at < src.len() {
        return false;
    }
    dst[at..at + src.len()].copy_from_slice(src);
    true
}

// The highest rank of n compliance values.
fn top_of(n: usize) -> u8
    ensures { result ≡ (n - 1) % 256 }
{
    if n == 0 {
        return 0;
    }
    ((n - 1) % 256) as u8
}

// What the smaller tables hold: the joined texts, the identifiers, their places, and which of them are requesters.
#[derive(Clone, Copy)]
struct Begun<'a> {
    joined: &'a [u8],
    identifiers: &'a [u8],
    indexed: &'a [usize],
    marks: &'a [u8],
}

// What the rows in use give.
fn solve_rows(
    authors: &[u16],
    conds: &[u8],
    ends: &[u16],
    code: &[u16],
    direct: &[u8],
    e: Ends,
    top: u8,
) -> Solution
    ensures { result ≡ rows_give authors.now conds.now ends.now code.now direct.now e top }
{
    solve(
        front(authors, e.kept),
        front(conds, e.kept),
        front(ends, e.kept),
        front(code, e.size),
        front(direct, e.index.count),
        top,
    )
}

// The assertions from the one with that number on read and solved, over tables for every query that begin as the old ones.
// Kept: one function for this and `grown` would call itself with a larger table, and such a call gets no proof.
#[inline(never)]
fn grown_large(
    shared: &Shared,
    texts: &[usize],
    begun: &Begun,
    code: &mut [u16],
    authors: &mut [u16],
    conds: &mut [u8],
    ends: &mut [u16],
    page: &mut [u8],
    next: usize,
    e: Ends,
) -> Solution
    ensures { solved_by result page.new ≡ grown_in large [] (fixed shared.now.query.now shared.now.values.now shared.now.names.now shared.now.top shared.now.start) texts.now begun.now.joined.now begun.now.identifiers.now begun.now.indexed.now begun.now.marks.now code.old authors.old conds.old ends.old page.old next e }
{
    let mut consts = [0u8; MOST_CONSTS];
    let mut pool = [0u8; MOST_POOL];
    let mut places = [0usize; MOST_PRINCIPALS];
    let mut direct = [0u8; MOST_PRINCIPALS];
    text::copy_at(&mut consts, 0, begun.joined);
    text::copy_at(&mut pool, 0, begun.identifiers);
    copy_places(&mut places, 0, begun.indexed);
    text::copy_at(&mut direct, 0, begun.marks);
    let w = read_each(
        shared,
        texts,
        &mut consts,
        &mut pool,
        &mut places,
        code,
        authors,
        conds,
        ends,
        page,
        next,
        e,
    );
    solve_rows(authors, conds, ends, code, &direct, w.ends, shared.top)
}

// The same over tables for most long records, and from where these are full over those for every query.
#[inline(never)]
fn grown(
    shared: &Shared,
    texts: &[usize],
    begun: &Begun,
    code: &mut [u16],
    authors: &mut [u16],
    conds: &mut [u8],
    ends: &mut [u16],
    page: &mut [u8],
    next: usize,
    e: Ends,
) -> Solution
    ensures { solved_by result page.new ≡ grown_in middle (large ∷ []) (fixed shared.now.query.now shared.now.values.now shared.now.names.now shared.now.top shared.now.start) texts.now begun.now.joined.now begun.now.identifiers.now begun.now.indexed.now begun.now.marks.now code.old authors.old conds.old ends.old page.old next e }
{
    let mut consts = [0u8; MOST_CONSTS];
    let mut pool = [0u8; MIDDLE_POOL];
    let mut places = [0usize; MOST_PRINCIPALS];
    let mut direct = [0u8; MOST_PRINCIPALS];
    text::copy_at(&mut consts, 0, begun.joined);
    text::copy_at(&mut pool, 0, begun.identifiers);
    copy_places(&mut places, 0, begun.indexed);
    text::copy_at(&mut direct, 0, begun.marks);
    let w = read_each(
        shared,
        texts,
        &mut consts,
        &mut pool,
        &mut places,
        code,
        authors,
        conds,
        ends,
        page,
        next,
        e,
    );
    let u = w.ends;
    if w.next < texts.len() {
        let begun = Begun {
            joined: front(&consts, shared.start),
            identifiers: front(&pool, u.index.end),
            indexed: front(&places, u.index.count),
            marks: front(&direct, u.index.count),
        };
        return grown_large(
            shared, texts, &begun, code, authors, conds, ends, page, w.next, u,
        );
    }
    solve_rows(authors, conds, ends, code, &direct, u, shared.top)
}

// The assertions at `texts` read and solved, over an index that has POLICY and the requesters.
fn fill(
    shared: &Shared,
    texts: &[usize],
    consts: &mut [u8],
    pool: &mut [u8],
    places: &mut [usize],
    direct: &[u8],
    index: Index,
    page: &mut [u8],
) -> Solution
    requires { shared.now.top ≡ (length shared.now.values.now - 1) % 256 }
    ensures { solved_by result page.new ≡ filled_in shared.now.query.now shared.now.values.now shared.now.names.now texts.now shared.now.start consts.old pool.old places.old direct.now index page.old }
{
    let mut code = [0u16; SOME_CODE];
    let mut authors = [0u16; SOME_ROWS];
    let mut conds = [0u8; SOME_ROWS];
    let mut ends = [0u16; SOME_ROWS];
    put_header(page, texts.len());
    let from = Ends {
        index,
        size: 0,
        kept: 0,
    };
    let w = read_each(
        shared,
        texts,
        consts,
        pool,
        places,
        &mut code,
        &mut authors,
        &mut conds,
        &mut ends,
        page,
        0,
        from,
    );
    let e = w.ends;
    if w.next < texts.len() {
        let begun = Begun {
            joined: front(consts, shared.start),
            identifiers: front(pool, e.index.end),
            indexed: front(places, e.index.count),
            marks: front(direct, e.index.count),
        };
        return grown(
            shared,
            texts,
            &begun,
            &mut code,
            &mut authors,
            &mut conds,
            &mut ends,
            page,
            w.next,
            e,
        );
    }
    solve_rows(&authors, &conds, &ends, &code, direct, e, shared.top)
}

// The same for a long record or many assertions: into the middle tables at once, or into the large ones. That each of the functions called here is called
// from two places also has the compiler keep their tables apart.
fn fill_long(
    shared: &Shared,
    texts: &[usize],
    consts: &[u8],
    pool: &[u8],
    places: &[usize],
    direct: &[u8],
    index: Index,
    page: &mut [u8],
) -> Solution
    requires { shared.now.top ≡ (length shared.now.values.now - 1) % 256 }
    ensures { solved_by result page.new ≡ filled_long shared.now.query.now shared.now.values.now shared.now.names.now texts.now shared.now.start consts.now pool.now places.now direct.now index page.old }
{
    let mut code = [0u16; MOST_PROGRAMS];
    let mut authors = [0u16; MOST_ASSERTIONS];
    let mut conds = [0u8; MOST_ASSERTIONS];
    let mut ends = [0u16; MOST_ASSERTIONS];
    put_header(page, texts.len());
    let e = Ends {
        index,
        size: 0,
        kept: 0,
    };
    let begun = Begun {
        joined: front(consts, shared.start),
        identifiers: front(pool, e.index.end),
        indexed: front(places, e.index.count),
        marks: front(direct, e.index.count),
    };
    if MIDDLE_MOST < e.index.end {
        return grown_large(
            shared,
            texts,
            &begun,
            &mut code,
            &mut authors,
            &mut conds,
            &mut ends,
            page,
            0,
            e,
        );
    }
    grown(
        shared,
        texts,
        &begun,
        &mut code,
        &mut authors,
        &mut conds,
        &mut ends,
        page,
        0,
        e,
    )
}

// The query whose items are at those places of its record: its class, and the report on the page.
pub fn solved(
    query: &[u8],
    values: &[usize],
    requesters: &[usize],
    names: &[usize],
    texts: &[usize],
    page: &mut [u8],
) -> Solution
    ensures { solved_by result page.new ≡ solved_in query.now values.now requesters.now names.now texts.now page.old }
{
    let mut consts = [0u8; SOME_CONSTS];
    let mut pool = [0u8; SOME_POOL];
    let mut places = [0usize; SOME_PRINCIPALS];
    let mut direct = [0u8; SOME_PRINCIPALS];
    let start = begin_constants(&mut consts, query, values, requesters);
    let alone = begin_index(&mut pool, &mut places);
    let index = ask_all(
        query,
        requesters,
        &mut pool,
        &mut places,
        &mut direct,
        alone,
    );
    let shared = Shared {
        query,
        values,
        names,
        top: top_of(values.len()),
        start,
    };
    // Kept: two calls, so that its tables, too, stay out of this frame.
    if LONG < query.len() {
        return fill_long(
            &shared, texts, &consts, &pool, &places, &direct, index, page,
        );
    }
    if SOME_ROWS < texts.len() {
        return fill_long(
            &shared, texts, &consts, &pool, &places, &direct, index, page,
        );
    }
    fill(
        &shared,
        texts,
        &mut consts,
        &mut pool,
        &mut places,
        &direct,
        index,
        page,
    )
}
