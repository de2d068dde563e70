// The index of principals: each distinct identifier gets a number when it is first read. Identifiers lie in a lent pool, each behind its
// two-byte length; a lent table holds an entry for each.
#![tactic(auto)]

ghost use Rattle.std.specs.Prelude.{◌≡◌, ◌&&◌, ◌<◌, ltb, set};
ghost use Rattle.principal.specs.Tag.{tag};
ghost use Rattle.index.specs.Entry.{identifier_at, is_at, child, linked};
ghost use Rattle.index.specs.Working.Walking.{walked};
ghost use Rattle.index.specs.Working.Adding.{entered, append_into, principal_into};
ghost use Rattle.index.specs.Working.Entering.{link_into, numbered, enter_new, enter_in};

// An entry has 12 bits for the number of another.
pub const MOST_NUMBERED: usize = 4096;

// Is it the entry of the identifier, whose tag is t?
fn is_entry(pool: &[u8], e: usize, id: &[u8], t: usize) -> bool
    requires { t ≡ tag id.now }
    ensures { result ≡ is_at pool.now id.now e }
{
    e % 1048576 == t && principal::same_principal(id, identifier_at(pool, e))
}

// The further entry for tags whose next bit is t's.
fn child_of(e: usize, t: usize) -> usize
    ensures { result ≡ child e t }
{
    if t % 2 == 0 {
        return e / 1099511627776 % 4096;
    }
    e / 4503599627370496
}

// An entry with c for it.
fn with_child(e: usize, t: usize, c: usize) -> usize
    requires { c < 4096 }
    ensures { result ≡ linked e t c }
{
    if t % 2 == 0 {
        return e / 4503599627370496 * 4503599627370496 + c * 1099511627776 + e % 1099511627776;
    }
    c * 4503599627370496 + e % 4503599627370496
}

fn is_between(a: usize, b: usize, c: usize) -> bool
    ensures { result ≡ ltb a b && ltb b c }
{
    a < b && b < c
}

// Where the search for an identifier that isn't there ends: at the entry that it would follow by the rest of its tag.
#[derive(Clone, Copy)]
struct Missing {
    last: usize,
    rest: usize,
}

// The search for an identifier, whose tag is t, among the first n entries: its entry's number.
fn walk_tree(pool: &[u8], places: &[usize], n: usize, id: &[u8], t: usize) -> Result<usize, Missing>
    requires { t ≡ tag id.now }
    ensures { result ≡ walked pool.now places.now n id.now n 0 t }
{
    let mut last: usize = 0;
    let mut rest = t;
    for _ in 0..n {
        if places.len() <= last {
            return Err(Missing { last, rest });
        }
        let e = places[last];
        if is_entry(pool, e, id, t) {
            return Ok(last);
        }
        let c = child_of(e, rest);
        if !is_between(last, c, n) {
            return Err(Missing { last, rest });
        }
        last = c;
        rest = rest / 2;
    }
    Err(Missing { last, rest })
}

// The identifier of an entry.
pub fn identifier_at(pool: &[u8], e: usize) -> &[u8]
    ensures { result.now ≡ identifier_at pool.now e }
{
    text::counted_at(pool, e / 1048576 % 1048576)
}

// How many entries there are, and where the pool's front, which holds them, ends.
#[derive(Clone, Copy)]
pub struct Index {
    pub count: usize,
    pub end: usize,
}

// Appends a string behind the others, and its place to the table, if there is room; the index then.
pub fn append(pool: &mut [u8], places: &mut [usize], index: Index, id: &[u8]) -> Option<Index>
    ensures { entered result pool.new places.new ≡ append_into pool.old places.old index.count index.end id.now }
{
    if places.len() <= index.count {
        return None;
    }
    if text::put_counted(pool, index.end, id) {
        let i = index.count;
        places[i] = index.end + 2;
        return Some(Index {
            count: index.count + 1,
            end: index.end + 2 + id.len(),
        });
    }
    None
}

fn put_entry(places: &mut [usize], i: usize, e: usize)
    ensures { places.new ≡ set places.old i e }
{
    if places.len() <= i {
        return;
    }
    places[i] = e;
}

// Enters a principal, whose tag is t, behind the others.
fn add_principal(
    pool: &mut [u8],
    places: &mut [usize],
    index: Index,
    id: &[u8],
    t: usize,
) -> Option<Index>
    requires { (t ≡ tag id.now) × (t < 1048576) }
    ensures { entered result pool.new places.new ≡ principal_into pool.old places.old index.count index.end id.now }
{
    if 1048574 <= index.end {
        return None;
    }
    let next = append(pool, places, index, id)?;
    put_entry(places, index.count, (index.end + 2) * 1048576 + t);
    Some(next)
}

// Lets entry c follow entry i for tags whose next bit is t's.
fn link(places: &mut [usize], i: usize, t: usize, c: usize)
    requires { c < 4096 }
    ensures { places.new ≡ link_into places.old i t c }
{
    if places.len() <= i {
        return;
    }
    places[i] = with_child(places[i], t, c);
}

// A principal's number in the index, with the index's count and end. They are not an `Index`, and the number stands between them: a copy of both at once
// would wait for the stores of each, which costs 5 % of names that are all distinct.
#[derive(Clone, Copy)]
pub struct Numbered {
    pub count: usize,
    pub number: usize,
    pub end: usize,
}

// Enters an identifier that isn't there, behind the others; by the rest of its tag it follows entry `last`.
fn enter_new(
    pool: &mut [u8],
    places: &mut [usize],
    index: Index,
    id: &[u8],
    t: usize,
    last: usize,
    rest: usize,
) -> Option<Numbered>
    requires { (t ≡ tag id.now) × (t < 1048576) }
    ensures { numbered result pool.new places.new ≡ enter_new pool.old places.old index.count index.end id.now last rest }
{
    if MOST_NUMBERED <= index.count {
        return None;
    }
    let next = add_principal(pool, places, index, id, t)?;
    link(places, last, rest, index.count);
    Some(Numbered {
        count: next.count,
        number: index.count,
        end: next.end,
    })
}

// Enters an identifier into the index, unless it is there already.
pub fn enter(pool: &mut [u8], places: &mut [usize], index: Index, id: &[u8]) -> Option<Numbered>
    ensures { numbered result pool.new places.new ≡ enter_in pool.old places.old index.count index.end id.now }
{
    let t = principal::tag_of(id);
    match walk_tree(pool, places, index.count, id, t) {
        Ok(number) => Some(Numbered {
            count: index.count,
            number,
            end: index.end,
        }),
        Err(stop) => enter_new(pool, places, index, id, t, stop.last, stop.rest),
    }
}
