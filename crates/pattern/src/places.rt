// Sets of places of a pattern, and what is known of a part of one.
ghost use Rattle.std.specs.Prelude.{◌≡◌};
ghost use Rattle.pattern.specs.Working.Places as P;
ghost use Rattle.pattern.specs.Working.Skip as K;

// A set of places of a pattern: 256 bits.
// Kept: four fields and no array, since each word goes with constant bounds of its own (`link`, `step`), which a loop would compute.
#[derive(Clone, Copy, PartialEq, Eq)]
pub struct Places {
    pub a: u64,
    pub b: u64,
    pub c: u64,
    pub d: u64,
}

// What is known of a part of a pattern. Whether it can be empty: at a boundary that is both ends of the string, its start, inside, its end.
// The places at which it can begin, at the start and inside, and at which it can end, inside and at the end.
#[derive(Clone, Copy)]
pub struct Part {
    pub nb: bool,
    pub ns: bool,
    pub nm: bool,
    pub ne: bool,
    pub fs: Places,
    pub fm: Places,
    pub lm: Places,
    pub le: Places,
}

pub fn nowhere() -> Places
    ensures { result ≡ P.nowhere }
{
    Places {
        a: 0,
        b: 0,
        c: 0,
        d: 0,
    }
}

fn only_at(q: usize) -> Places
    ensures { result ≡ P.only_at q }
{
    let none = nowhere();
    if q < 64 {
        return Places { a: 1 << q, ..none };
    }
    if q < 128 {
        return Places {
            b: 1 << (q - 64),
            ..none
        };
    }
    if q < 192 {
        return Places {
            c: 1 << (q - 128),
            ..none
        };
    }
    if q < 256 {
        return Places {
            d: 1 << (q - 192),
            ..none
        };
    }
    none
}

pub fn join(x: Places, y: Places) -> Places
    ensures { result ≡ P.join x y }
{
    Places {
        a: x.a | y.a,
        b: x.b | y.b,
        c: x.c | y.c,
        d: x.d | y.d,
    }
}

fn gated(t: bool, x: Places) -> Places
    ensures { result ≡ P.gated t x }
{
    if t { x } else { nowhere() }
}

pub fn start_part() -> Part
    ensures { result ≡ P.start_part }
{
    let n = nowhere();
    Part {
        nb: true,
        ns: true,
        nm: false,
        ne: false,
        fs: n,
        fm: n,
        lm: n,
        le: n,
    }
}

pub fn end_part() -> Part
    ensures { result ≡ P.end_part }
{
    let n = nowhere();
    Part {
        nb: true,
        ns: false,
        nm: false,
        ne: true,
        fs: n,
        fm: n,
        lm: n,
        le: n,
    }
}

pub fn byte_part(q: usize) -> Part
    ensures { result ≡ P.byte_part q }
{
    let n = only_at(q);
    Part {
        nb: false,
        ns: false,
        nm: false,
        ne: false,
        fs: n,
        fm: n,
        lm: n,
        le: n,
    }
}

pub fn sequence(f: Part, g: Part) -> Part
    ensures { result ≡ P.sequence f g }
{
    let fs = join(f.fs, gated(f.ns, g.fs));
    let fm = join(f.fm, gated(f.nm, g.fm));
    let lm = join(g.lm, gated(g.nm, f.lm));
    let le = join(g.le, gated(g.ne, f.le));
    Part {
        nb: f.nb & g.nb,
        ns: f.ns & g.ns,
        nm: f.nm & g.nm,
        ne: f.ne & g.ne,
        fs,
        fm,
        lm,
        le,
    }
}

pub fn choice(f: Part, g: Part) -> Part
    ensures { result ≡ P.choice f g }
{
    let fs = join(f.fs, g.fs);
    let fm = join(f.fm, g.fm);
    let lm = join(f.lm, g.lm);
    let le = join(f.le, g.le);
    Part {
        nb: f.nb | g.nb,
        ns: f.ns | g.ns,
        nm: f.nm | g.nm,
        ne: f.ne | g.ne,
        fs,
        fm,
        lm,
        le,
    }
}

pub fn or_empty(f: Part) -> Part
    ensures { result ≡ P.or_empty f }
{
    Part {
        nb: true,
        ns: true,
        nm: true,
        ne: true,
        ..f
    }
}

// Word by word: the derived equality reads two words at once, and waits until both are stored.
#[tactic(auto, using(text::specs::Choice::tests), unfolding(crate::specs::Working::Skip::same_places))]
pub fn same_places(x: Places, y: Places) -> bool
    ensures { result ≡ K.same_places x y }
{
    if x.a != y.a || x.b != y.b || x.c != y.c {
        return false;
    }
    x.d == y.d
}
