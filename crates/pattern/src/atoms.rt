// Atoms for one byte: where they end and which bytes they accept.
ghost use Rattle.std.specs.Prelude.{◌≡◌, true, false};
ghost use Rattle.pattern.specs.Bytes as B;
ghost use Rattle.pattern.specs.Working.Scan as S;

// An item of a set: the set is closed here, or the item ends before `next`, and holds the byte or not.
#[derive(Clone, Copy)]
pub enum Taken {
    Closed,
    Item { next: usize, hit: bool },
}

// Where an atom ends, and whether it accepts the byte.
#[derive(Clone, Copy)]
pub struct End {
    pub at: usize,
    pub hit: bool,
}

fn special(b: u8) -> bool
    ensures { result ≡ B.special b }
{
    b"^.[$()|*+?{\\".contains(&b)
}

// The byte b stands at i.
#[tactic(auto, using(text::specs::Choice::tests), unfolding(crate::specs::Bytes::stands))]
fn stands(p: &[u8], i: usize, b: u8) -> bool
    ensures { result ≡ B.stands p.now i b }
{
    i < p.len() && p[i] == b
}

// A "[" before . = : stands at i.
fn opens_name(p: &[u8], i: usize) -> bool
    ensures { result ≡ B.opens_name p.now i }
{
    if p.len() <= i || p[i] != b'[' {
        return false;
    }
    if stands(p, i + 1, b'.') || stands(p, i + 1, b'=') {
        return true;
    }
    stands(p, i + 1, b':')
}

// The byte at i can end a range.
fn ends_range(p: &[u8], i: usize) -> bool
    ensures { result ≡ S.ends_range p.now i }
{
    if p.len() <= i || p[i] == b'-' || p[i] == b']' {
        return false;
    }
    !opens_name(p, i)
}

// The byte at i begins a range.
fn ranges(p: &[u8], i: usize) -> bool
    ensures { result ≡ S.ranges p.now i }
{
    if p.len() <= i || p.len() <= i + 1 || p[i + 1] != b'-' {
        return false;
    }
    !stands(p, i + 2, b']')
}

#[tactic(auto, using(text::specs::Choice::tests), unfolding(crate::specs::Working::Scan::within))]
fn within(low: u8, high: u8, c: u8) -> bool
    ensures { result ≡ S.within low high c }
{
    low <= c && c <= high
}

fn range_at(p: &[u8], i: usize, c: u8) -> Option<Taken>
    ensures { result ≡ S.range_at p.now i c }
{
    if p.len() <= i || p.len() - i <= 2 || !ends_range(p, i + 2) {
        return None;
    }
    if p[i + 2] < p[i] {
        return None;
    }
    Some(Taken::Item {
        next: i + 3,
        hit: within(p[i], p[i + 2], c),
    })
}

fn byte_at(p: &[u8], i: usize, c: u8) -> Option<Taken>
    ensures { result ≡ S.byte_at p.now i c }
{
    if p.len() <= i {
        return None;
    }
    if ranges(p, i) {
        return range_at(p, i, c);
    }
    Some(Taken::Item {
        next: i + 1,
        hit: p[i] == c,
    })
}

fn dash_at(p: &[u8], i: usize, first: bool, c: u8) -> Option<Taken>
    ensures { result ≡ S.dash_at p.now i first c }
{
    if p.len() <= i {
        return None;
    }
    if first || stands(p, i + 1, b']') {
        return Some(Taken::Item {
            next: i + 1,
            hit: b'-' == c,
        });
    }
    None
}

// None: no item can stand at i.
fn item_at(p: &[u8], i: usize, first: bool, c: u8) -> Option<Taken>
    ensures { result ≡ S.item_at p.now i first c }
{
    if p.len() <= i {
        return None;
    }
    match p[i] {
        b']' => {
            if first {
                return byte_at(p, i, c);
            }
            Some(Taken::Closed)
        }
        b'-' => dash_at(p, i, first, c),
        _ => {
            if opens_name(p, i) {
                return None;
            }
            byte_at(p, i, c)
        }
    }
}

fn set_from(p: &[u8], from: usize, c: u8) -> Option<End>
    ensures { result ≡ S.set_rest p.now c from true false }
{
    let mut i = from;
    let mut first = true;
    let mut hit = false;
    // Kept: a turn goes on behind an item of the set, so there is no range to go over.
    while i < p.len() {
        match item_at(p, i, first, c)? {
            Taken::Closed => {
                return Some(End { at: i + 1, hit });
            }
            Taken::Item { next, hit: h } => {
                if next <= i {
                    return None;
                }
                hit |= h;
                first = false;
                i = next;
            }
        }
    }
    None
}

// The set whose "[" stands at q.
fn set_at(p: &[u8], q: usize, c: u8) -> Option<End>
    ensures { result ≡ S.set_at p.now q c }
{
    if p.len() <= q || p.len() <= q + 1 {
        return None;
    }
    if p[q + 1] == b'^' {
        let End { at, hit } = set_from(p, q + 2, c)?;
        return Some(End { at, hit: !hit });
    }
    set_from(p, q + 1, c)
}

// Does the atom at q accept the byte c?
pub fn accepts_at(p: &[u8], q: usize, c: u8) -> bool
    ensures { result ≡ S.accepts_at p.now q c }
{
    if p.len() <= q {
        return false;
    }
    match p[q] {
        b'.' => true,
        b'\\' => stands(p, q + 1, c),
        b'[' => match set_at(p, q, c) {
            Some(end) => end.hit,
            None => false,
        },
        b => b == c,
    }
}

// Where the atom of one byte at i ends.
pub fn one_end(p: &[u8], i: usize) -> Option<End>
    ensures { result ≡ S.one_end p.now i }
{
    if p.len() <= i {
        return None;
    }
    match p[i] {
        b'.' => Some(End {
            at: i + 1,
            hit: true,
        }),
        b'\\' => {
            if p.len() <= i + 1 || !special(p[i + 1]) {
                return None;
            }
            Some(End {
                at: i + 2,
                hit: true,
            })
        }
        b'[' => set_at(p, i, 0),
        b => {
            if special(b) {
                return None;
            }
            Some(End {
                at: i + 1,
                hit: true,
            })
        }
    }
}
