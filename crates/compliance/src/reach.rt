// The reach: POLICY and, repeatedly, the licensees of assertions whose authorizer is in it. One bit for each of n principals.
ghost use Rattle.std.specs.Prelude.{◌≡◌, length, get_or, set, eqb, true};
ghost use Rattle.compliance.specs.Tables.{program_of};
ghost use Rattle.compliance.specs.Working.Reach.{marked, marked_all, open_at, FirstOpen, Expanded, spread_from};
ghost use Rattle.compliance.specs.Working.Words.{flags_in, spare_in};

use crate::machine::{TOP, index_at, item_or};
use crate::tables::System;
use crate::words::{is_set, set_flag};

// Flags the principal that the instruction names, if it names one of the n.
fn mark(n: usize, reach: &mut [u64], op: u16)
    ensures reach_after { flags_in n reach.new ≡ marked op (flags_in n reach.old) }
    ensures reach_unchanged { spare_in n reach.new ≡ spare_in n reach.old }
{
    let i = usize::from(op);
    if op < TOP && i < n {
        set_flag(reach, i);
    }
}

// Flags the principals that the program names.
fn mark_all(n: usize, code: &[u16], reach: &mut [u64])
    ensures reach_after { flags_in n reach.new ≡ marked_all code.now (flags_in n reach.old) }
    ensures reach_unchanged { spare_in n reach.new ≡ spare_in n reach.old }
{
    for op in code {
        mark(n, reach, *op);
    }
}

// Is the principal i one of the n, and flagged?
fn is_reached(n: usize, reach: &[u64], i: usize) -> bool
    ensures { result ≡ eqb (get_or (flags_in n reach.now) i 0) 1 }
{
    i < n && is_set(reach, i)
}

impl System<'_> {
    // Is assertion j still to be expanded, and its authorizer reached?
    fn is_open(&self, done: &[bool], reach: &[u64], j: usize) -> bool
        ensures { result ≡ open_at self.now.authors.now done.now (flags_in (length self.now.direct.now) reach.now) j }
    {
        !item_or(done, j, false) && is_reached(self.direct.len(), reach, index_at(self.authors, j))
    }

    // The first assertion that is.
    fn first_open(&self, done: &[bool], reach: &[u64]) -> Option<usize>
        ensures { FirstOpen self.now.authors.now done.now (flags_in (length self.now.direct.now) reach.now) result }
    {
        for j in 0..self.authors.len() {
            if self.is_open(done, reach, j) {
                return Some(j);
            }
        }
        None
    }

    // Flags the licensees of assertion j, which is then expanded.
    fn expand(&self, done: &mut [bool], reach: &mut [u64], j: usize)
        ensures expanded { Expanded done.new (flags_in (length self.now.direct.now) reach.new) (set done.old j true) (marked_all (program_of self.now.ends.now self.now.code.now j) (flags_in (length self.now.direct.now) reach.old)) }
        ensures reach_unchanged { spare_in (length self.now.direct.now) reach.new ≡ spare_in (length self.now.direct.now) reach.old }
    {
        mark_all(self.direct.len(), self.program(j), reach);
        if j < done.len() {
            done[j] = true;
        }
    }

    // Expands each assertion whose authorizer is reached, once.
    fn spread(&self, done: &mut [bool], reach: &mut [u64])
        ensures reach_after { flags_in (length self.now.direct.now) reach.new ≡ spread_from self.now.authors.now self.now.ends.now self.now.code.now (length self.now.authors.now) done.old (flags_in (length self.now.direct.now) reach.old) }
        ensures reach_unchanged { spare_in (length self.now.direct.now) reach.new ≡ spare_in (length self.now.direct.now) reach.old }
    {
        for _ in 0..self.authors.len() {
            let Some(j) = self.first_open(done, reach) else {
                return;
            };
            self.expand(done, reach, j);
        }
    }

    // From a table of no flags: POLICY, and all of the principals that it reaches.
    pub(crate) fn find_reach(&self, done: &mut [bool], reach: &mut [u64])
        ensures reach_after { flags_in (length self.now.direct.now) reach.new ≡ spread_from self.now.authors.now self.now.ends.now self.now.code.now (length self.now.authors.now) done.old (marked 0 (flags_in (length self.now.direct.now) reach.old)) }
        ensures reach_unchanged { spare_in (length self.now.direct.now) reach.new ≡ spare_in (length self.now.direct.now) reach.old }
    {
        mark(self.direct.len(), reach, 0);
        self.spread(done, reach);
    }
}
