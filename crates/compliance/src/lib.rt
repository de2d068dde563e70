// The compliance value of a query from tables of numbers. Principals are indices, POLICY is 0.
#![tactic(auto)]

mod fast;
mod highest;
pub mod machine;
mod reach;
mod rounds;
mod tables;
mod words;

ghost use Rattle.std.specs.Prelude.{◌≡◌, ◌≤◌, length};
ghost use Rattle.limits.specs.Limits.{most_assertions, most_licensees, most_principals};
ghost use Rattle.compliance.specs.Working.Solve.{Blank, solved_by, solution_of};
ghost use Rattle.compliance.specs.Working.Words.{words_for};

use limits::{MOST_ASSERTIONS, MOST_LICENSEES, MOST_PRINCIPALS};
use machine::item_or;
use tables::System;
use words::count;

const WORDS: usize = (MOST_PRINCIPALS + 63) / 64;

// Most queries have no more principals: their tables are small. It buys 29 % of a chain of 200.
const FEW: usize = 64;

const FEW_WORDS: usize = (FEW + 63) / 64;

// The rank of POLICY, the rounds that changed a rank in the reach, and how many principals are in it.
#[derive(Clone, Copy)]
pub struct Solution {
    pub rank: u8,
    pub rounds: usize,
    pub reached: usize,
}

impl System<'_> {
    // The answer, worked out in blank tables that are lent.
    fn solve_in(
        &self,
        ranks: &mut [u8],
        next: &mut [u8],
        reach: &mut [u64],
        done: &mut [bool],
        stack: &mut [u8],
    ) -> Solution
        requires { Blank (length self.now.authors.now) (length self.now.direct.now) ranks.old next.old reach.old done.old }
        ensures { result ≡ solved_by self.now.authors.now self.now.conds.now self.now.ends.now self.now.code.now self.now.direct.now self.now.top (length stack.old) }
    {
        // A copy of its own, whose slices no store can change: through the reference they would be read again after each, and a chain of 200 takes a
        // third longer.
        let system = *self;
        system.find_reach(done, reach);
        let reached = count(reach);
        let rounds = system.settle(reach, ranks, next, stack, reached);
        let rank = item_or(ranks, 0, 0);
        Solution {
            rank,
            rounds,
            reached,
        }
    }

    // The answer, worked out in tables for N principals, whose flags take W words.
    fn solve_within<const N: usize, const W: usize>(&self) -> Solution
        requires wide { (N ≤ most_principals) × (W ≡ words_for N) }
        requires within { (length self.now.authors.now ≤ most_assertions) × (length self.now.direct.now ≤ N) }
        ensures { result ≡ solved_by self.now.authors.now self.now.conds.now self.now.ends.now self.now.code.now self.now.direct.now self.now.top most_licensees }
    {
        let n = self.direct.len();
        let m = self.authors.len();
        let mut ranks = [0u8; N];
        let mut next = [0u8; N];
        let mut reach = [0u64; W];
        let mut done = [false; MOST_ASSERTIONS];
        let mut stack = [0u8; MOST_LICENSEES];
        self.solve_in(
            &mut ranks[..n],
            &mut next[..n],
            &mut reach,
            &mut done[..m],
            &mut stack,
        )
    }
}

// The rank of POLICY in the least solution, with the rounds that it took and the number of principals reached.
// authors: the authorizer of each assertion. conds: the rank of its conditions. ends: where its program ends in code, and the next
// begins. code: its licensees as a program (see `machine`). direct: for each principal, 1 if it is a requester. top: the highest rank.
// Where there are more assertions or principals than the tables are made for, all three are 0.
pub fn solve(
    authors: &[u16],
    conds: &[u8],
    ends: &[u16],
    code: &[u16],
    direct: &[u8],
    top: u8,
) -> Solution
    ensures value { result ≡ solution_of authors.now conds.now ends.now code.now direct.now top }
    ensures bounded { result.rounds ≤ result.reached }
{
    let system = System {
        authors,
        conds,
        ends,
        code,
        direct,
        top,
    };
    if MOST_PRINCIPALS < direct.len() || MOST_ASSERTIONS < authors.len() {
        return Solution {
            rank: 0,
            rounds: 0,
            reached: 0,
        };
    }
    if direct.len() <= FEW {
        return system.solve_within::<FEW, FEW_WORDS>();
    }
    system.solve_within::<MOST_PRINCIPALS, WORDS>()
}
