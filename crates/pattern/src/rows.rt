// The table of the places that may follow each place: row q has four words, at 4 q.
ghost use Rattle.std.specs.Prelude.{◌≡◌};
ghost use Rattle.pattern.specs.Working.Places as P;

use crate::places::{Places, nowhere};

fn or_at(t: &mut [u64], i: usize, x: u64)
    ensures { t.new ≡ P.or_at t.old i x }
{
    if i < t.len() {
        t[i] |= x;
    }
}

fn word_at(t: &[u64], i: usize) -> u64
    ensures { result ≡ P.word_at t.now i }
{
    t.get(i).copied().unwrap_or(0)
}

// The row q of the table is at 4 q.
fn add_row(t: &mut [u64], q: usize, x: Places)
    ensures { t.new ≡ P.add_row t.old q x }
{
    if q < 256 {
        or_at(t, 4 * q, x.a);
        or_at(t, 4 * q + 1, x.b);
        or_at(t, 4 * q + 2, x.c);
        or_at(t, 4 * q + 3, x.d);
    }
}

pub fn row(t: &[u64], q: usize) -> Places
    ensures { result ≡ P.row t.now q }
{
    if q < 256 {
        let a = word_at(t, 4 * q);
        let b = word_at(t, 4 * q + 1);
        let c = word_at(t, 4 * q + 2);
        let d = word_at(t, 4 * q + 3);
        return Places { a, b, c, d };
    }
    nowhere()
}

fn add_if(t: &mut [u64], x: u64, q: usize, to: Places)
    ensures { t.new ≡ P.add_if t.old x q to }
{
    if x % 2 == 1 {
        add_row(t, q, to);
    }
}

// Adds the places `to` to the rows of the places of a word, from `base` up to `end`.
fn link_word(t: &mut [u64], word: u64, base: usize, end: usize, to: Places)
    ensures { t.new ≡ P.link_word t.old word base end to }
{
    let mut x = word;
    for q in base..end {
        if x == 0 {
            return;
        }
        add_if(t, x, q, to);
        x /= 2;
    }
}

pub fn link(t: &mut [u64], from: Places, to: Places)
    ensures { t.new ≡ P.link t.old from to }
{
    link_word(t, from.a, 0, 64, to);
    link_word(t, from.b, 64, 128, to);
    link_word(t, from.c, 128, 192, to);
    link_word(t, from.d, 192, 256, to);
}
