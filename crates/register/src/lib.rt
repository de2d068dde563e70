// A register of priority moves, held by at most 64 principals. It is a value that goes in and comes back.
#![tactic(auto)]

mod layout;
mod places;

ghost use Rattle.std.specs.Prelude.{true, ◌≤◌, length, ◌≡◌};
ghost use Rattle.register.specs.Calls.{issues, passes, spends, removes, called, number};
ghost use Rattle.register.specs.Entries as entries;
ghost use Rattle.register.specs.Find as finding;
ghost use Rattle.register.specs.OnBytes.{written, settled, on_bytes, emptied, find_on};
ghost use Rattle.register.specs.Told.{contents, told, Tells, unfit_number, unfit_place};
ghost use Rattle.register.specs.Working.Places.{sound, moves_at, known_place, credit_of, after_of, issue_of, spend_of, pass_at, pass_of, remove_of};

use layout::{BYTES, Unfit, check, read, write};
use places::{
    free, is_amount, is_sound, moves_at, place_of, with_issued, with_moves, with_new,
    with_principal,
};

pub const MOST_PRINCIPALS: usize = 64;

pub const MOST_MOVES: u64 = 1000000;

// Why a call is refused.
#[derive(Clone, Copy, PartialEq, Eq)]
pub enum Reason {
    DamagedRegister,
    AmountOutside,
    UnknownPrincipal,
    MoreThanHeld,
    IssueLimit,
    NoPlace,
    MovesLeft,
}

impl Reason {
    // Its number, which C is told.
    pub fn number(self) -> u8
        ensures { result ≡ number self }
    {
        match self {
            Reason::DamagedRegister => 20,
            Reason::AmountOutside => 14,
            Reason::UnknownPrincipal => 15,
            Reason::MoreThanHeld => 16,
            Reason::IssueLimit => 17,
            Reason::NoPlace => 18,
            Reason::MovesLeft => 19,
        }
    }
}

// A place: a principal and its moves, or free. Numbers left at a free place count for nothing.
// Kept: the mark stands beside the numbers, since a refusal gives back those of a free place too (`Tells.kept`).
#[derive(Clone, Copy)]
pub struct Place {
    pub held: bool,
    pub principal: u32,
    pub moves: u64,
}

// A free place.
const NOBODY: Place = Place {
    held: false,
    principal: 0,
    moves: 0,
};

// The places, and the number of all moves ever issued.
#[derive(Clone, Copy)]
pub struct Register {
    pub places: [Place; MOST_PRINCIPALS],
    pub issued: u64,
}

// A principal's place, and how many held entries were compared.
// Kept: no Option, since the work is told both ways (theorems `find_at`, `find-missing` and `work-most` of `Find`).
#[derive(Clone, Copy)]
pub enum Found {
    At { place: usize, work: usize },
    Missing { work: usize },
}

// What a call gives: its answer, and the register after it.
// Kept: the register stands beside the answer, since a refusal gives back the one handed in (`Tells.kept`).
#[derive(Clone, Copy)]
pub struct After {
    pub answer: Result<(), Reason>,
    pub register: Register,
}

// The register that holds nobody.
pub fn empty() -> Register
    ensures { contents result ≡ entries.empty }
{
    Register {
        places: [NOBODY; MOST_PRINCIPALS],
        issued: 0,
    }
}

// Finds a principal, with the work of it.
pub fn find(register: Register, principal: u32) -> Found
    ensures { result ≡ finding.find (contents register).entries principal }
{
    place_of(&register, principal)
}

// What a call on a register gives: the register made of it, or the reason and the register itself.
fn given(register: Register, made: Result<Register, Reason>) -> After
    ensures { result ≡ after_of register made }
{
    match made {
        Ok(next) => After {
            answer: Ok(()),
            register: next,
        },
        Err(reason) => After {
            answer: Err(reason),
            register,
        },
    }
}

// The register with more moves at a principal, which is added where it isn't held.
fn credited(register: Register, principal: u32, amount: u64) -> Result<Register, Reason>
    requires { (sound register ≡ true) × (amount ≤ 1000000) }
    ensures { result ≡ credit_of register principal amount }
{
    match place_of(&register, principal) {
        Found::At { place, .. } => {
            let moves = moves_at(&register, place);
            Ok(with_moves(register, place, moves + amount))
        }
        Found::Missing { .. } => match free(&register) {
            Some(place) => Ok(with_principal(register, place, principal, amount)),
            None => Err(Reason::NoPlace),
        },
    }
}

// The register in which moves are issued to a principal.
fn issued(register: Register, principal: u32, amount: u64) -> Result<Register, Reason>
    ensures { result ≡ issue_of register principal amount }
{
    if !is_sound(&register) {
        return Err(Reason::DamagedRegister);
    }
    if !is_amount(amount) {
        return Err(Reason::AmountOutside);
    }
    let all = register.issued + amount;
    if MOST_MOVES < all {
        return Err(Reason::IssueLimit);
    }
    let more = credited(register, principal, amount)?;
    Ok(with_issued(more, all))
}

// Issues moves to a principal, which is added where it isn't held.
pub fn issue(register: Register, principal: u32, amount: u64) -> After
    ensures { Tells register result (called (contents register) (issues principal amount)) }
{
    given(register, issued(register, principal, amount))
}

// The place of a principal that has to be held.
fn known_place(register: &Register, principal: u32) -> Result<usize, Reason>
    ensures { result ≡ known_place register.now principal }
{
    match place_of(register, principal) {
        Found::At { place, .. } => Ok(place),
        Found::Missing { .. } => Err(Reason::UnknownPrincipal),
    }
}

// The register in which a principal spent moves.
fn spent(register: Register, payer: u32, amount: u64) -> Result<Register, Reason>
    ensures { result ≡ spend_of register payer amount }
{
    if !is_sound(&register) {
        return Err(Reason::DamagedRegister);
    }
    if !is_amount(amount) {
        return Err(Reason::AmountOutside);
    }
    let place = known_place(&register, payer)?;
    let moves = moves_at(&register, place);
    if moves < amount {
        return Err(Reason::MoreThanHeld);
    }
    Ok(with_moves(register, place, moves - amount))
}

// Spends moves of a principal.
pub fn spend(register: Register, payer: u32, amount: u64) -> After
    ensures { Tells register result (called (contents register) (spends payer amount)) }
{
    given(register, spent(register, payer, amount))
}

// The register in which moves are passed on from place i to place j.
fn passed_between(register: Register, i: usize, j: usize, amount: u64) -> Result<Register, Reason>
    requires { (moves_at register j ≤ 1000000) × (amount ≤ 1000000) }
    ensures { result ≡ pass_at register i j amount }
{
    let moves = moves_at(&register, i);
    if moves < amount {
        return Err(Reason::MoreThanHeld);
    }
    if i == j {
        return Ok(register);
    }
    let others = moves_at(&register, j);
    let fewer = with_moves(register, i, moves - amount);
    Ok(with_moves(fewer, j, others + amount))
}

// The register in which moves are passed on from one principal to another.
fn passed(register: Register, payer: u32, receiver: u32, amount: u64) -> Result<Register, Reason>
    ensures { result ≡ pass_of register payer receiver amount }
{
    if !is_sound(&register) {
        return Err(Reason::DamagedRegister);
    }
    if !is_amount(amount) {
        return Err(Reason::AmountOutside);
    }
    let i = known_place(&register, payer)?;
    let j = known_place(&register, receiver)?;
    passed_between(register, i, j, amount)
}

// Passes moves on from one principal to another.
pub fn pass(register: Register, payer: u32, receiver: u32, amount: u64) -> After
    ensures { Tells register result (called (contents register) (passes payer receiver amount)) }
{
    given(register, passed(register, payer, receiver, amount))
}

// The register without a principal.
fn removed(register: Register, principal: u32) -> Result<Register, Reason>
    ensures { result ≡ remove_of register principal }
{
    if !is_sound(&register) {
        return Err(Reason::DamagedRegister);
    }
    let place = known_place(&register, principal)?;
    if 0 < moves_at(&register, place) {
        return Err(Reason::MovesLeft);
    }
    Ok(with_new(register, place, NOBODY))
}

// Removes a principal that holds no moves.
pub fn remove(register: Register, principal: u32) -> After
    ensures { Tells register result (called (contents register) (removes principal)) }
{
    given(register, removed(register, principal))
}

// What a call on bytes answers. The number is 0 where it is granted.
#[repr(C)]
#[derive(Clone, Copy)]
pub struct Reply {
    pub number: u8,
    pub place: usize,
}

// What finding on bytes answers: a refusal's number and place, or whether the principal is held, at which place, and the work.
#[repr(C)]
#[derive(Clone, Copy)]
pub struct Search {
    pub number: u8,
    pub place: usize,
    pub held: bool,
    pub at: usize,
    pub work: usize,
}

// The reply for bytes that are no register.
fn unfit(why: Unfit) -> Reply
    ensures { result ≡ record { number = unfit_number why; place = unfit_place why } }
{
    Reply {
        number: why.number(),
        place: why.place(),
    }
}

// Writes the register of a granted call.
fn finish(bytes: &mut [u8], after: After) -> Reply
    requires { length bytes.old ≡ 841 }
    ensures { written result.number result.place bytes.new ≡ settled bytes.old (told after.answer (contents after.register)) }
{
    match after.answer {
        Ok(()) => {
            write(bytes, after.register);
            Reply {
                number: 0,
                place: 0,
            }
        }
        Err(reason) => Reply {
            number: reason.number(),
            place: 0,
        },
    }
}

// Writes the empty register.
#[unsafe(no_mangle)]
pub extern "C" fn lampsickle_register_empty(bytes: &mut [u8]) -> Reply
    ensures { written result.number result.place bytes.new ≡ emptied bytes.old }
{
    if bytes.len() != BYTES {
        return unfit(Unfit::Length);
    }
    write(bytes, empty());
    Reply {
        number: 0,
        place: 0,
    }
}

// Issues moves to a principal, in the bytes of a register.
#[unsafe(no_mangle)]
pub extern "C" fn lampsickle_register_issue(bytes: &mut [u8], principal: u32, amount: u64) -> Reply
    ensures { written result.number result.place bytes.new ≡ on_bytes bytes.old (issues principal amount) }
{
    match check(bytes) {
        Err(why) => unfit(why),
        Ok(()) => finish(bytes, issue(read(bytes), principal, amount)),
    }
}

// Passes moves on, in the bytes of a register.
#[unsafe(no_mangle)]
pub extern "C" fn lampsickle_register_pass(
    bytes: &mut [u8],
    payer: u32,
    receiver: u32,
    amount: u64,
) -> Reply
    ensures { written result.number result.place bytes.new ≡ on_bytes bytes.old (passes payer receiver amount) }
{
    match check(bytes) {
        Err(why) => unfit(why),
        Ok(()) => finish(bytes, pass(read(bytes), payer, receiver, amount)),
    }
}

// Spends moves of a principal, in the bytes of a register.
#[unsafe(no_mangle)]
pub extern "C" fn lampsickle_register_spend(bytes: &mut [u8], payer: u32, amount: u64) -> Reply
    ensures { written result.number result.place bytes.new ≡ on_bytes bytes.old (spends payer amount) }
{
    match check(bytes) {
        Err(why) => unfit(why),
        Ok(()) => finish(bytes, spend(read(bytes), payer, amount)),
    }
}

// Removes a principal that holds no moves, in the bytes of a register.
#[unsafe(no_mangle)]
pub extern "C" fn lampsickle_register_remove(bytes: &mut [u8], principal: u32) -> Reply
    ensures { written result.number result.place bytes.new ≡ on_bytes bytes.old (removes principal) }
{
    match check(bytes) {
        Err(why) => unfit(why),
        Ok(()) => finish(bytes, remove(read(bytes), principal)),
    }
}

// Finds a principal in the bytes of a register.
#[unsafe(no_mangle)]
pub extern "C" fn lampsickle_register_find(bytes: &[u8], principal: u32) -> Search
    ensures { result ≡ find_on bytes.now principal }
{
    match check(bytes) {
        Err(why) => Search {
            number: why.number(),
            place: why.place(),
            held: false,
            at: 0,
            work: 0,
        },
        Ok(()) => match find(read(bytes), principal) {
            Found::At { place, work } => Search {
                number: 0,
                place: 0,
                held: true,
                at: place,
                work,
            },
            Found::Missing { work } => Search {
                number: 0,
                place: 0,
                held: false,
                at: 0,
                work,
            },
        },
    }
}
