// A run over a string with a set of places.
ghost use Rattle.std.specs.Prelude.{◌≡◌, ◌<◌};
ghost use Rattle.pattern.specs.Working.Sim as M;
ghost use Rattle.pattern.specs.Working.Skip as K;

use crate::atoms::accepts_at;
use crate::places::{Part, Places, join, same_places};
use crate::rows::row;

// The places that come next, and 1 where a match ends here.
// Kept: a number and no bool, so that the struct has no padding.
#[derive(Clone, Copy)]
pub struct Swept {
    pub places: Places,
    pub hit: u64,
}

// From how many bytes on a string is long.
const LONG: usize = 512;

fn visit(t: &[u64], q: usize, last: bool, x: Swept) -> Swept
    ensures { result ≡ M.visit t.now q last x }
{
    let y = row(t, q);
    let places = join(x.places, y);
    let hit = if last { 1 } else { x.hit };
    Swept { places, hit }
}

// The zeros below the lowest bit that is set, fewer than 64.
fn low_zeros(x: u64) -> usize
    ensures value { result ≡ M.low_zeros x }
    ensures bounded { result < 64 }
{
    let n = x.trailing_zeros();
    if n < 64 { n as usize } else { 0 }
}

// A pattern that was read: its bytes, the table of the places that may follow each place, and what is known of the whole.
#[derive(Clone, Copy)]
struct Pattern<'a> {
    bytes: &'a [u8],
    table: &'a [u64],
    whole: Part,
}

impl Pattern<'_> {
    fn sweep_one(&self, x: u64, l: u64, q: usize, c: u8, a: Swept) -> Swept
        ensures { result ≡ M.sweep_one self.now.bytes.now self.now.table.now x l q c a }
    {
        if x % 2 == 1 && accepts_at(self.bytes, q, c) {
            return visit(self.table, q, l % 2 == 1, a);
        }
        a
    }

    // Goes through the places of a word, from `base` up to `end`.
    fn sweep(&self, word: u64, ends: u64, base: usize, end: usize, c: u8, from: Swept) -> Swept
        ensures { result ≡ M.sweep self.now.bytes.now self.now.table.now word ends base end c from }
    {
        let mut x = word;
        let mut l = ends;
        let mut q = base;
        let mut a = from;
        // Kept: a turn goes on behind the word's next bit, so there is no range to go over.
        while q < end {
            if x == 0 {
                return a;
            }
            let n = low_zeros(x);
            if end - q <= n {
                return a;
            }
            let y = x >> n;
            let m = l >> n;
            a = self.sweep_one(y, m, q + n, c, a);
            x = y / 2;
            l = m / 2;
            q = q + n + 1;
        }
        a
    }

    // `sweep`, and no call where the word is empty. It buys 9 % of the pattern "anchored".
    fn sweep_word(&self, word: u64, ends: u64, base: usize, end: usize, c: u8, from: Swept) -> Swept
        ensures { result ≡ M.sweep self.now.bytes.now self.now.table.now word ends base end c from }
    {
        if word == 0 {
            return from;
        }
        self.sweep(word, ends, base, end, c, from)
    }

    fn step(&self, at: Places, last: Places, c: u8) -> Swept
        ensures { result ≡ M.step_at self.now.bytes.now self.now.table.now at last self.now.whole.fm c }
    {
        let w = Swept {
            places: self.whole.fm,
            hit: 0,
        };
        let x = self.sweep_word(at.a, last.a, 0, 64, c, w);
        let y = self.sweep_word(at.b, last.b, 64, 128, c, x);
        let z = self.sweep_word(at.c, last.c, 128, 192, c, y);
        self.sweep_word(at.d, last.d, 192, 256, c, z)
    }

    fn run_plain(&self, s: &[u8]) -> bool
        ensures { result ≡ M.run_from self.now.bytes.now s.now self.now.table.now self.now.whole.fm self.now.whole.lm self.now.whole.le 0 self.now.whole.fs }
    {
        let mut at = self.whole.fs;
        for (i, c) in s.iter().enumerate() {
            let last = chosen(i + 1 == s.len(), self.whole.le, self.whole.lm);
            let r = self.step(at, last, *c);
            if r.hit == 1 {
                return true;
            }
            at = r.places;
        }
        false
    }

    // Has nothing come or ended?
    fn is_idle(&self, x: Swept) -> bool
        ensures { result ≡ K.idle x self.now.whole.fm }
    {
        x.hit == 0 && same_places(x.places, self.whole.fm)
    }

    // Marks the bytes at which no match begins inside a string.
    fn note_idle(&self, m: &mut [bool; 256])
        ensures { K.Noted self.now.bytes.now self.now.table.now self.now.whole.fm self.now.whole.lm 256 m.new }
    {
        for k in 0..256 {
            let r = self.step(self.whole.fm, self.whole.lm, k as u8);
            m[k] = self.is_idle(r);
        }
    }

    // Where only a match's beginning is awaited, past marked bytes.
    fn skip_from(&self, m: &[bool; 256], s: &[u8], i: usize, at: Places) -> usize
        ensures { result ≡ K.skip_from m.now s.now i at self.now.whole.fm }
    {
        if same_places(at, self.whole.fm) {
            skip(m, s, i)
        } else {
            i
        }
    }

    fn run_skipping(&self, s: &[u8], m: &[bool; 256]) -> bool
        requires { K.Noted self.now.bytes.now self.now.table.now self.now.whole.fm self.now.whole.lm 256 m.now }
        ensures { result ≡ M.run_from self.now.bytes.now s.now self.now.table.now self.now.whole.fm self.now.whole.lm self.now.whole.le 0 self.now.whole.fs }
    {
        let mut at = self.whole.fs;
        let mut i = 0;
        // Kept: a turn goes on behind the bytes that are skipped, so there is no range to go over.
        while i < s.len() {
            let j = self.skip_from(m, s, i, at);
            if s.len() <= j {
                return false;
            }
            let e = j + 1;
            let last = chosen(e == s.len(), self.whole.le, self.whole.lm);
            let r = self.step(at, last, s[j]);
            if r.hit == 1 {
                return true;
            }
            at = r.places;
            i = e;
        }
        false
    }

    // `run_plain` of a string so long that it pays to know at which bytes no match begins. Without it the worst pattern takes 25 times as
    // long.
    fn run_long(&self, s: &[u8]) -> bool
        ensures { result ≡ M.run_from self.now.bytes.now s.now self.now.table.now self.now.whole.fm self.now.whole.lm self.now.whole.le 0 self.now.whole.fs }
    {
        let mut m = [false; 256];
        self.note_idle(&mut m);
        self.run_skipping(s, &m)
    }

    fn run_from(&self, s: &[u8]) -> bool
        ensures { result ≡ M.run_from self.now.bytes.now s.now self.now.table.now self.now.whole.fm self.now.whole.lm self.now.whole.le 0 self.now.whole.fs }
    {
        if s.len() < LONG {
            return self.run_plain(s);
        }
        self.run_long(s)
    }
}

fn chosen(e: bool, x: Places, y: Places) -> Places
    ensures { result ≡ M.chosen e x y }
{
    if e { x } else { y }
}

fn is_marked(m: &[bool; 256], c: u8) -> bool
    ensures { result ≡ K.marked m.now c }
{
    m[usize::from(c)]
}

// Past marked bytes, at most to the last.
fn skip(m: &[bool; 256], s: &[u8], from: usize) -> usize
    ensures { result ≡ K.skipped m.now s.now from }
{
    let last = s.len().saturating_sub(1);
    for i in from..last {
        if !is_marked(m, s[i]) {
            return i;
        }
    }
    from.max(last)
}

pub fn runs(p: &[u8], s: &[u8], t: &[u64], f: Part) -> bool
    ensures { result ≡ M.runs p.now s.now t.now f }
{
    if s.len() == 0 {
        return f.nb;
    }
    if f.ns || f.ne {
        return true;
    }
    let pattern = Pattern {
        bytes: p,
        table: t,
        whole: f,
    };
    pattern.run_from(s)
}
