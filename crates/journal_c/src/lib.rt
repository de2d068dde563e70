// The journal for C: the functions of crate journal, by their names in C.
#![tactic(auto)]

ghost use Rattle.journal.specs.Journal.{AppendCut, Appended, RecoverCut, Recovered};

use journal::Outcome;

// Makes the first `budget` stores of appending an answer: what a power cut behind one of them leaves.
#[unsafe(no_mangle)]
pub extern "C" fn lampsickle_journal_append_cut(
    page: &mut [u8],
    answer: &[u8],
    budget: usize,
) -> Outcome
    ensures { AppendCut budget page.old answer.now result page.new }
{
    journal::lampsickle_journal_append_cut(page, answer, budget)
}

// Appends an answer.
#[unsafe(no_mangle)]
pub extern "C" fn lampsickle_journal_append(page: &mut [u8], answer: &[u8]) -> Outcome
    ensures { Appended page.old answer.now result page.new }
{
    journal::lampsickle_journal_append(page, answer)
}

// Makes the first `budget` stores of recovery: what a power cut behind one of them leaves.
#[unsafe(no_mangle)]
pub extern "C" fn lampsickle_journal_recover_cut(page: &mut [u8], budget: usize) -> Outcome
    ensures { RecoverCut budget page.old result page.new }
{
    journal::lampsickle_journal_recover_cut(page, budget)
}

// Keeps the finished entries and clears the rest.
#[unsafe(no_mangle)]
pub extern "C" fn lampsickle_journal_recover(page: &mut [u8]) -> Outcome
    ensures { Recovered page.old result page.new }
{
    journal::lampsickle_journal_recover(page)
}
