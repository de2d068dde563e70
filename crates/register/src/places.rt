// The places of a register: searching, number 20's test, and stores.
ghost use Rattle.std.specs.Prelude.{true, ◌≡◌, leb};
ghost use Rattle.register.specs.Working.Places.{find_from, found, free_place, sum_from, sum, distinct_from, sound, amount, moves_at, with_moves, with_new, with_issued};

use crate::{Found, MOST_MOVES, MOST_PRINCIPALS, Place, Register};

// Finds a principal from a place on.
fn find_from(r: &Register, principal: u32, from: usize) -> Found
    ensures { result ≡ find_from r.now.places principal from 0 }
{
    let mut work: usize = 0;
    for i in from..MOST_PRINCIPALS {
        let p = r.places[i];
        if !p.held {
            continue;
        }
        work += 1;
        if p.principal == principal {
            return Found::At { place: i, work };
        }
    }
    Found::Missing { work }
}

// Finds a principal, with the work of it.
pub fn place_of(r: &Register, principal: u32) -> Found
    ensures { result ≡ found r.now.places principal }
{
    find_from(r, principal, 0)
}

// The first free place.
pub fn free(r: &Register) -> Option<usize>
    ensures { result ≡ free_place r.now.places }
{
    for i in 0..MOST_PRINCIPALS {
        if !r.places[i].held {
            return Some(i);
        }
    }
    None
}

// Whether the moves held are at most those issued.
fn covered(r: &Register) -> bool
    ensures { result ≡ leb (sum r.now.places) r.now.issued }
{
    let mut total: u64 = 0;
    for p in &r.places {
        if !p.held {
            continue;
        }
        if r.issued - total < p.moves {
            return false;
        }
        total += p.moves;
    }
    true
}

// Whether no principal stands twice.
fn all_distinct(r: &Register) -> bool
    ensures { result ≡ distinct_from r.now.places 0 }
{
    for (i, p) in r.places.iter().enumerate() {
        if !p.held {
            continue;
        }
        if let Found::At { .. } = find_from(r, p.principal, i + 1) {
            return false;
        }
    }
    true
}

// Whether a register may be used: number 20 is given for one that may not.
#[tactic(auto, using(text::specs::Choice::tests), unfolding(crate::specs::Working::Places::sound))]
pub fn is_sound(r: &Register) -> bool
    ensures { result ≡ sound r.now }
{
    r.issued <= MOST_MOVES && covered(r) && all_distinct(r)
}

// Whether an amount is from 1 to 1,000,000.
#[tactic(auto, using(text::specs::Choice::tests), unfolding(crate::specs::Working::Places::amount))]
pub fn is_amount(n: u64) -> bool
    ensures { result ≡ amount n }
{
    1 <= n && n <= MOST_MOVES
}

// The moves at a place.
pub fn moves_at(r: &Register, i: usize) -> u64
    ensures { result ≡ moves_at r.now i }
{
    if i < MOST_PRINCIPALS {
        return r.places[i].moves;
    }
    0
}

// The register with other moves at a place.
pub fn with_moves(r: Register, i: usize, moves: u64) -> Register
    ensures { result ≡ with_moves r i moves }
{
    let mut next = r;
    if i < MOST_PRINCIPALS {
        next.places[i].moves = moves;
    }
    next
}

// The register with another place in place of one.
pub fn with_new(r: Register, i: usize, p: Place) -> Register
    ensures { result ≡ with_new r i p }
{
    let mut next = r;
    if i < MOST_PRINCIPALS {
        next.places[i] = p;
    }
    next
}

// The register with a principal at a place.
pub fn with_principal(r: Register, i: usize, principal: u32, moves: u64) -> Register
    ensures { result ≡ with_new r i (record { held = true; principal = principal; moves = moves }) }
{
    with_new(
        r,
        i,
        Place {
            held: true,
            principal,
            moves,
        },
    )
}

// The register with another number of moves issued.
pub fn with_issued(r: Register, issued: u64) -> Register
    ensures { result ≡ with_issued r issued }
{
    Register { issued, ..r }
}
