// A journal of answers on a lent page, in an order of stores that survives a power cut.
#![tactic(auto)]

ghost use Rattle.std.specs.Prelude.{◌≡◌, ◌+◌, ◌-◌, ◌<◌, ◌≤◌, length, take};
ghost use Rattle.journal.specs.Page.{zeros, entry};
ghost use Rattle.journal.specs.Stores.{stored, placed, cleared};
ghost use Rattle.journal.specs.Journal.{number, AppendCut, Appended, RecoverCut, Recovered};
ghost use Rattle.journal.specs.Working.Walk.{entry_behind, end_at};
ghost use Rattle.journal.specs.Working.Rooms.{opened, room, room_at};

use text::pair_at;

pub const LEAST_PAGE: usize = 16;

pub const MOST_PAGE: usize = 65535;

pub const VERSION: u8 = 1;

pub const CLOSING: u8 = 1;

// Why a request is refused: a page outside 16 to 65,535 bytes or an empty answer, another version byte, a page that isn't finished entries and zeros,
// an entry over the room left.
#[derive(Clone, Copy, PartialEq, Eq)]
pub enum Refusal {
    WrongSize,
    WrongVersion,
    Unclean,
    NoRoom,
}

impl Refusal {
    // Its number.
    pub fn number(self) -> u8
        ensures { result ≡ number self }
    {
        match self {
            Refusal::WrongSize => 5,
            Refusal::WrongVersion => 2,
            Refusal::Unclean => 3,
            Refusal::NoRoom => 9,
        }
    }
}

// The number and the place of a refusal, 0 and 0 where the request was granted.
#[repr(C)]
#[derive(Clone, Copy)]
pub struct Outcome {
    pub number: u8,
    pub place: usize,
}

// The place behind the finished entry at a place, if one stands there.
fn next_entry(page: &[u8], at: usize) -> Option<usize>
    ensures { result ≡ entry_behind page.now at }
{
    let left = page.len().saturating_sub(at);
    let n = pair_at(page, at);
    if n == 0 || left < 3 || left - 3 < n {
        return None;
    }
    if page[at + n + 2] != CLOSING {
        return None;
    }
    Some(at + n + 3)
}

// The place behind the last finished entry.
fn entries_end(page: &[u8]) -> usize
    ensures { result ≡ end_at page.now 1 }
{
    let mut at: usize = 1;
    // Kept: a turn goes on behind an entry, so there is no range to go over.
    while let Some(next) = next_entry(page, at) {
        at = next;
    }
    at
}

// Are all bytes 0? The loop has no early end, so that many bytes are tested at once.
fn is_clear(rest: &[u8]) -> bool
    ensures { result ≡ zeros rest.now }
{
    let mut clear = true;
    for b in rest {
        clear &= *b == 0;
    }
    clear
}

// Where the rest of a page begins, or why it is refused.
fn page_end(page: &[u8]) -> Result<usize, Refusal>
    ensures { result ≡ opened page.now }
{
    let size = page.len();
    if size < LEAST_PAGE {
        return Err(Refusal::WrongSize);
    }
    if MOST_PAGE < size {
        return Err(Refusal::WrongSize);
    }
    if page[0] != VERSION {
        return Err(Refusal::WrongVersion);
    }
    Ok(entries_end(page))
}

// The room for an answer of n bytes, where the rest of a page begins at a place.
fn room_at(page: &[u8], at: usize, n: usize) -> Result<usize, Refusal>
    requires { at ≤ length page.now }
    ensures { result ≡ room_at page.now at n }
{
    let rest = &page[at..];
    if !is_clear(rest) {
        return Err(Refusal::Unclean);
    }
    let left = rest.len();
    if left < 3 {
        return Err(Refusal::NoRoom);
    }
    if left - 3 < n {
        return Err(Refusal::NoRoom);
    }
    Ok(at)
}

// Where an answer's entry goes, or why it is refused.
fn room_for(page: &[u8], answer: &[u8]) -> Result<usize, Refusal>
    ensures { result ≡ room page.now answer.now }
{
    if answer.len() == 0 {
        return Err(Refusal::WrongSize);
    }
    let at = page_end(page)?;
    room_at(page, at, answer.len())
}

// Makes the first `count` stores of an answer from a place on.
fn write_answer(page: &mut [u8], at: usize, answer: &[u8], count: usize)
    requires { (at + count ≤ length page.old) × (count ≤ length answer.now) }
    ensures { page.new ≡ stored page.old (take count (placed at answer.now)) }
{
    // Kept: the bytes are stored one after the other, in an order that a copy of all at once doesn't promise.
    for j in 0..count {
        page[at + j] = answer[j];
    }
}

// Makes the first `count` stores of an entry: length, answer, closing byte.
fn write_entry(page: &mut [u8], at: usize, answer: &[u8], count: usize)
    requires { (at + count ≤ length page.old) × (count ≤ length answer.now + 3) × (length answer.now < 65536) }
    ensures { page.new ≡ stored page.old (take count (placed at (entry answer.now))) }
{
    let n = answer.len();
    if count == 0 {
        return;
    }
    page[at] = (n / 256) as u8;
    if count == 1 {
        return;
    }
    page[at + 1] = (n % 256) as u8;
    let bytes = (count - 2).min(n);
    write_answer(page, at + 2, answer, bytes);
    if count - 2 <= n {
        return;
    }
    page[at + n + 2] = CLOSING;
}

// Makes the first `count` stores of clearing a page from its end back to a place.
fn clear_back(page: &mut [u8], at: usize, count: usize)
    requires { (at ≤ length page.old) × (count ≤ length page.old - at) }
    ensures { page.new ≡ stored page.old (take count (cleared (length page.old - at) at)) }
{
    for j in 0..count {
        page[page.len() - 1 - j] = 0;
    }
}

// Kept: C is told the refusal by its number, 0 where there is none.
fn numbered(number: u8) -> Outcome
    ensures { result ≡ record { number = number; place = 0 } }
{
    Outcome { number, place: 0 }
}

// Makes the first `budget` stores of appending an answer: what a power cut behind one of them leaves.
#[unsafe(no_mangle)]
pub extern "C" fn lampsickle_journal_append_cut(
    page: &mut [u8],
    answer: &[u8],
    budget: usize,
) -> Outcome
    ensures { AppendCut budget page.old answer.now result page.new }
{
    match room_for(page, answer) {
        Err(refusal) => numbered(refusal.number()),
        Ok(place) => {
            let total = answer.len() + 3;
            write_entry(page, place, answer, budget.min(total));
            numbered(0)
        }
    }
}

// Appends an answer.
#[unsafe(no_mangle)]
pub extern "C" fn lampsickle_journal_append(page: &mut [u8], answer: &[u8]) -> Outcome
    ensures { Appended page.old answer.now result page.new }
{
    let budget = page.len();
    lampsickle_journal_append_cut(page, answer, budget)
}

// Makes the first `budget` stores of recovery: what a power cut behind one of them leaves.
#[unsafe(no_mangle)]
pub extern "C" fn lampsickle_journal_recover_cut(page: &mut [u8], budget: usize) -> Outcome
    ensures { RecoverCut budget page.old result page.new }
{
    match page_end(page) {
        Err(refusal) => numbered(refusal.number()),
        Ok(place) => {
            let total = page.len() - place;
            clear_back(page, place, budget.min(total));
            numbered(0)
        }
    }
}

// Keeps the finished entries and clears the rest.
#[unsafe(no_mangle)]
pub extern "C" fn lampsickle_journal_recover(page: &mut [u8]) -> Outcome
    ensures { Recovered page.old result page.new }
{
    let budget = page.len();
    lampsickle_journal_recover_cut(page, budget)
}
