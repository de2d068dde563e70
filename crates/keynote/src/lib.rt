// What the port asks: the class of a query, and what became of each assertion.
#![tactic(auto)]

ghost use Rattle.std.specs.Prelude.{◌≡◌, length, take, drop, ◌-◌};
ghost use Rattle.keynote.specs.Outcome.{refused_with, outcome, page_after};
ghost use Rattle.keynote.specs.Working.Answering.{given_by, answered_in};

use compliance::Solution;
use limits::MOST_ITEMS;
use record::read;
use system::solved::solved;

// The number and the place of a refusal, 0 and 0 for an answer; then the class (0 is weakest), the rounds and how many principals are
// reached.
#[repr(C)]
#[derive(Clone, Copy)]
pub struct Outcome {
    pub number: u8,
    pub place: usize,
    pub rank: u8,
    pub rounds: usize,
    pub reached: usize,
}

fn refused(number: u8, place: usize) -> Outcome
    ensures { result ≡ refused_with number place }
{
    Outcome {
        number,
        place,
        rank: 0,
        rounds: 0,
        reached: 0,
    }
}

// The entries from one to another, as far as there are any.
fn part(table: &[usize], from: usize, to: usize) -> &[usize]
    ensures { result.now ≡ take (to - from) (drop from table.now) }
{
    if to <= from {
        return &table[..0];
    }
    if table.len() <= from {
        return &table[..0];
    }
    if table.len() < to {
        return &table[from..];
    }
    &table[from..to]
}

// An accepted query, whose groups end at those entries of the table.
fn answered(
    query: &[u8],
    table: &[usize],
    values: usize,
    requesters: usize,
    attributes: usize,
    assertions: usize,
    page: &mut [u8],
) -> Outcome
    ensures { given_by result page.new ≡ answered_in query.now table.now values requesters attributes assertions page.old }
{
    let texts = part(table, attributes, assertions);
    if page.len() < 3 {
        return refused(9, 0);
    }
    if (page.len() - 3) / 3 < texts.len() {
        return refused(9, 0);
    }
    let s = solved(
        query,
        part(table, 0, values),
        part(table, values, requesters),
        part(table, requesters, attributes),
        texts,
        page,
    );
    Outcome {
        number: 0,
        place: 0,
        rank: s.rank,
        rounds: s.rounds,
        reached: s.reached,
    }
}

// The answer to a query's record, or a refusal; an answer writes the report to the page, a refusal nothing.
#[unsafe(no_mangle)]
pub extern "C" fn lampsickle_answer(query: &[u8], page: &mut [u8]) -> Outcome
    ensures value { result ≡ outcome query.now (length page.old) }
    ensures page_after { page.new ≡ page_after query.now page.old }
{
    let mut table = [0usize; MOST_ITEMS];
    match read(query, &mut table) {
        Err(refusal) => refused(refusal.number, refusal.at),
        Ok(ends) => answered(
            query,
            &table,
            ends.values,
            ends.requesters,
            ends.attributes,
            ends.assertions,
            page,
        ),
    }
}
