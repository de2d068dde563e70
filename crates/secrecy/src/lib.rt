// Two queries asked one after the other. The contract is what each call gives and leaves, demand 3, and W-211: what is proved of the definition
// of two queries holds of the code.
#![tactic(auto)]

ghost use Rattle.std.specs.Prelude.{◌≡◌, length};
ghost use Rattle.keynote.specs.Outcome.{outcome, page_after};
ghost use Rattle.secrecy.specs.Demand3.{Secret};
ghost use Rattle.secrecy.specs.Paper.{MorePaper};

use keynote::{Outcome, lampsickle_answer};

// What the two calls return.
#[derive(Clone, Copy)]
pub struct Both {
    pub first: Outcome,
    pub second: Outcome,
}

// Asks two records, with pages of any size and content.
pub fn ask_both(one: &[u8], other: &[u8], page: &mut [u8], leaf: &mut [u8]) -> Both
    ensures first_value { result.first ≡ outcome one.now (length page.old) }
    ensures second_value { result.second ≡ outcome other.now (length leaf.old) }
    ensures page_after { page.new ≡ page_after one.now page.old }
    ensures leaf_after { leaf.new ≡ page_after other.now leaf.old }
    ensures secret { Secret one.now other.now result page.new leaf.new }
    ensures more_paper { MorePaper one.now other.now result page.new leaf.new }
{
    let first = lampsickle_answer(one, page);
    let second = lampsickle_answer(other, leaf);
    Both { first, second }
}
