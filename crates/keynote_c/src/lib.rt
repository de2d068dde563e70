// The library for C: the one function of crate keynote, by its name in C.
#![tactic(auto)]

ghost use Rattle.std.specs.Prelude.{◌≡◌, length};
ghost use Rattle.keynote.specs.Outcome.{outcome, page_after};

use keynote::Outcome;

// The answer to a query's record, or a refusal; an answer writes the report to the page, a refusal nothing.
#[unsafe(no_mangle)]
pub extern "C" fn lampsickle_answer(query: &[u8], page: &mut [u8]) -> Outcome
    ensures value { result ≡ outcome query.now (length page.old) }
    ensures page_after { page.new ≡ page_after query.now page.old }
{
    keynote::lampsickle_answer(query, page)
}
