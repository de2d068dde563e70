// What is printed for a record: the class, the rounds, the reach and what became of each assertion, or the refusal.
#![tactic(auto)]

ghost use Rattle.std.specs.Prelude.{◌≡◌, ◌++◌, ◌+◌, ◌*◌, ◌/◌, ◌%◌, get_or, take};
ghost use Rattle.text.specs.Counted.{pair_at};
ghost use Rattle.printed.specs.Numeral.{decimal};
ghost use Rattle.printed.specs.Fill.{filled, fill_at};
ghost use Rattle.printed.specs.Lines.{said, line, pair_line, head_lines, assertion_line, assertion_lines, refusal_line, lines};

use keynote::{Outcome, lampsickle_answer};
use limits::{MOST_ASSERTIONS, MOST_REPORT};
use text::{copy_at, pair_at};

// Room for the lines of any answer with an `end` of one byte: three lines of at most 64 bytes together, and one of at most 33 for each assertion.
pub const LINES: usize = 64 + 33 * MOST_ASSERTIONS;

// The first n bytes, or all of them.
pub fn cut(text: &[u8], n: usize) -> &[u8]
    ensures { result.now ≡ take n text.now }
{
    &text[..text.len().min(n)]
}

// Writes at a place as much of a text as fits, and gives the place behind it.
fn add(out: &mut [u8], at: usize, text: &[u8]) -> usize
    ensures { filled result out.new ≡ fill_at out.old at text.now }
{
    if out.len() <= at {
        return at;
    }
    let part = cut(text, out.len() - at);
    copy_at(out, at, part);
    at + part.len()
}

fn digit(n: usize) -> u8
    ensures { result ≡ 48 + n % 10 }
{
    b'0' + (n % 10) as u8
}

fn add_number(out: &mut [u8], at: usize, n: usize) -> usize
    ensures { filled result out.new ≡ fill_at out.old at (decimal n) }
{
    let last = [digit(n)];
    if n < 10 {
        return add(out, at, &last);
    }
    let next = add_number(out, at, n / 10);
    add(out, next, &last)
}

// A text and a number.
fn say(out: &mut [u8], at: usize, word: &[u8], n: usize) -> usize
    ensures { filled result out.new ≡ fill_at out.old at (said word.now n) }
{
    let next = add(out, at, word);
    add_number(out, next, n)
}

// A line with one number.
fn add_line(out: &mut [u8], at: usize, word: &[u8], n: usize, end: &[u8]) -> usize
    ensures { filled result out.new ≡ fill_at out.old at (line word.now n end.now) }
{
    let next = say(out, at, word, n);
    add(out, next, end)
}

// A line with two numbers.
fn add_pair(
    out: &mut [u8],
    at: usize,
    first: &[u8],
    m: usize,
    second: &[u8],
    n: usize,
    end: &[u8],
) -> usize
    ensures { filled result out.new ≡ fill_at out.old at (pair_line first.now m second.now n end.now) }
{
    let a = say(out, at, first, m);
    let b = say(out, a, second, n);
    add(out, b, end)
}

// The byte at a place, 0 past the end.
fn byte_at(s: &[u8], at: usize) -> usize
    ensures { result ≡ get_or s.now at 0 }
{
    usize::from(s.get(at).copied().unwrap_or(0))
}

// The reason in the report's entry i.
fn reason_at(page: &[u8], i: usize) -> usize
    ensures { result ≡ get_or page.now (3 + 3 * i) 0 }
{
    if page.len() / 3 <= i {
        return 0;
    }
    byte_at(page, 3 + 3 * i)
}

// The place in the report's entry i.
fn place_at(page: &[u8], i: usize) -> usize
    ensures { result ≡ pair_at page.now (4 + 3 * i) }
{
    if page.len() / 3 <= i {
        return 0;
    }
    pair_at(page, 4 + 3 * i)
}

fn add_assertion(out: &mut [u8], at: usize, page: &[u8], end: &[u8], i: usize) -> usize
    ensures { filled result out.new ≡ fill_at out.old at (assertion_line page.now end.now i) }
{
    let reason = reason_at(page, i);
    let place = place_at(page, i);
    let next = say(out, at, b"assertion ", i);
    add_pair(out, next, b" reason ", reason, b" at ", place, end)
}

fn add_assertions(out: &mut [u8], at: usize, page: &[u8], end: &[u8], n: usize) -> usize
    ensures { filled result out.new ≡ fill_at out.old at (assertion_lines page.now end.now n) }
{
    let mut to = at;
    for i in 0..n {
        to = add_assertion(out, to, page, end, i);
    }
    to
}

// Rank, rounds and reached.
fn add_head(out: &mut [u8], answer: Outcome, values: usize, end: &[u8]) -> usize
    ensures { filled result out.new ≡ fill_at out.old 0 (head_lines answer values end.now) }
{
    let rank = usize::from(answer.rank);
    let a = add_pair(out, 0, b"rank ", rank, b" of ", values, end);
    let b = add_line(out, a, b"rounds ", answer.rounds, end);
    add_line(out, b, b"reached ", answer.reached, end)
}

fn add_refusal(out: &mut [u8], answer: Outcome, end: &[u8]) -> usize
    ensures { filled result out.new ≡ fill_at out.old 0 (refusal_line answer end.now) }
{
    let number = usize::from(answer.number);
    add_pair(out, 0, b"refused ", number, b" at ", answer.place, end)
}

// Writes the lines of a record's answer or refusal, each with `end` behind it, as far as they fit; gives how many bytes they take there.
pub fn answer_lines(query: &[u8], end: &[u8], out: &mut [u8]) -> usize
    ensures { filled result out.new ≡ fill_at out.old 0 (lines query.now end.now) }
{
    let mut page = [0u8; MOST_REPORT];
    let answer = lampsickle_answer(query, &mut page);
    if answer.number != 0 {
        return add_refusal(out, answer, end);
    }
    let values = byte_at(query, 1);
    let next = add_head(out, answer, values, end);
    let n = pair_at(&page, 1) / 3;
    add_assertions(out, next, &page, end, n)
}
