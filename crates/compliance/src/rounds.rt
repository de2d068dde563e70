// Rounds: the equations applied to the ranks of the principals in the reach, until a round changes nothing.
ghost use Rattle.std.specs.Prelude.{◌≡◌, length, replicate};
ghost use Rattle.compliance.specs.Working.Rounds.{granted_of, raised, relaxed_at, relax_from, direct_at, direct_table, Advanced, settled_at, settle_from, settle_on};
ghost use Rattle.compliance.specs.Working.Words.{flags_of};

use crate::fast::worth_of;
use crate::machine::{index_at, item_or};
use crate::tables::System;
use crate::words::is_set;

// Raises the rank at i to v. Past the end there is none.
fn raise(next: &mut [u8], i: usize, v: u8)
    ensures { next.new ≡ raised next.old i v }
{
    if i < next.len() {
        next[i] = next[i].max(v);
    }
}

// `ranks` becomes `next`; did no rank change?
fn adopt(ranks: &mut [u8], next: &[u8]) -> bool
    requires { length ranks.old ≡ length next.now }
    ensures { Advanced result ranks.new ranks.old next.now }
{
    let mut same = true;
    for i in 0..ranks.len() {
        same &= ranks[i] == next[i];
        ranks[i] = next[i];
    }
    same
}

// Kept: the tables of a round are parameters and no struct, since each clause names just those that its function changes.
impl System<'_> {
    // The rank of assertion j: the lesser of its conditions' and its licensees'.
    fn granted(&self, ranks: &[u8], stack: &mut [u8], j: usize) -> u8
        ensures { result ≡ granted_of self.now.conds.now self.now.ends.now self.now.code.now self.now.top (length stack.old) ranks.now j }
    {
        let licensed = worth_of(self.program(j), ranks, self.top, stack);
        item_or(self.conds, j, 0).min(licensed)
    }

    // Raises the rank of the authorizer of assertion j, if it is reached, to the assertion's. Conditions that rank no higher raise nothing.
    fn relax(&self, reach: &[u64], ranks: &[u8], next: &mut [u8], stack: &mut [u8], j: usize)
        ensures { next.new ≡ relaxed_at self.now.authors.now self.now.conds.now self.now.ends.now self.now.code.now self.now.top (length stack.old) (flags_of reach.now) ranks.now j next.old }
    {
        let p = index_at(self.authors, j);
        if is_set(reach, p) && item_or(next, p, 0) < item_or(self.conds, j, 0) {
            let v = self.granted(ranks, stack, j);
            raise(next, p, v);
        }
    }

    // Does so for each assertion.
    fn relax_all(&self, reach: &[u64], ranks: &[u8], next: &mut [u8], stack: &mut [u8])
        ensures { next.new ≡ relax_from self.now.authors.now self.now.conds.now self.now.ends.now self.now.code.now self.now.top (length stack.old) (flags_of reach.now) ranks.now (length self.now.authors.now) 0 next.old }
    {
        for j in 0..self.authors.len() {
            self.relax(reach, ranks, next, stack, j);
        }
    }

    // The direct authorization of the principal i: top where it is a requester and reached.
    fn direct_rank(&self, reach: &[u64], i: usize) -> u8
        ensures { result ≡ direct_at self.now.direct.now (flags_of reach.now) self.now.top i }
    {
        if is_set(reach, i) && item_or(self.direct, i, 0) == 1 {
            self.top
        } else {
            0
        }
    }

    // The direct authorization of each principal.
    fn set_direct(&self, reach: &[u64], next: &mut [u8])
        ensures { next.new ≡ direct_table self.now.direct.now (flags_of reach.now) self.now.top (length next.old) }
    {
        for (i, rank) in next.iter_mut().enumerate() {
            *rank = self.direct_rank(reach, i);
        }
    }

    // Rounds from a table of direct ranks on, until one changes nothing, at most limit; how many changed something. Ranks only rise, so
    // each round goes on from the table of the one before.
    fn settle_on(
        &self,
        reach: &[u64],
        ranks: &mut [u8],
        next: &mut [u8],
        stack: &mut [u8],
        limit: usize,
    ) -> usize
        requires { ranks.old ≡ replicate (length next.old) 0 }
        ensures { settled_at result ranks.new ≡ settle_on self.now.authors.now self.now.conds.now self.now.ends.now self.now.code.now self.now.top (length stack.old) (flags_of reach.now) next.old limit 0 ranks.old }
    {
        for n in 0..limit {
            self.relax_all(reach, ranks, next, stack);
            if adopt(ranks, next) {
                return n;
            }
        }
        limit
    }

    // Rounds until one changes nothing, at most limit; how many changed something.
    pub(crate) fn settle(
        &self,
        reach: &[u64],
        ranks: &mut [u8],
        next: &mut [u8],
        stack: &mut [u8],
        limit: usize,
    ) -> usize
        requires { ranks.old ≡ replicate (length next.old) 0 }
        ensures { settled_at result ranks.new ≡ settle_from self.now.authors.now self.now.conds.now self.now.ends.now self.now.code.now self.now.direct.now self.now.top (length stack.old) (flags_of reach.now) (length next.old) limit 0 ranks.old }
    {
        self.set_direct(reach, next);
        self.settle_on(reach, ranks, next, stack, limit)
    }
}
