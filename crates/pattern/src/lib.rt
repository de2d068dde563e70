// Pattern tests: extended expressions over bytes, decided with sets of places of the pattern.
#![tactic(auto)]

pub mod atoms;
pub mod places;
pub mod reader;
pub mod rows;
pub mod run;

ghost use Rattle.std.specs.Prelude.{◌≡◌};
ghost use Rattle.pattern.specs.Verdict.{Verdict};
ghost use Rattle.pattern.specs.Test.{test_of};
ghost use Rattle.pattern.specs.Working.Sim as M;

use crate::reader::{Parsed, expression};
use crate::run::runs;

// The longest pattern.
const MOST_PATTERN: usize = 256;

// More calls than a pattern's reader makes within each other: six for a byte, and five.
const DEPTH: usize = 2000;

fn test_with(t: &mut [u64], p: &[u8], s: &[u8]) -> Option<bool>
    ensures { result ≡ M.test_with t.old p.now s.now }
{
    if MOST_PATTERN < p.len() {
        return None;
    }
    let Parsed { part, next } = expression(p, 0, DEPTH, t)?;
    if next == p.len() {
        return Some(runs(p, s, t, part));
    }
    None
}

// Whether the pattern p matches anywhere in s. None where the bytes are no pattern.
pub fn pattern_test(p: &[u8], s: &[u8]) -> Option<bool>
    ensures verdict { Verdict p.now s.now result }
    ensures value { result ≡ test_of p.now s.now }
{
    let mut t = [0u64; 1024];
    test_with(&mut t, p, s)
}
