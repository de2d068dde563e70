// A fault of a text: the number of a reason and a place.
ghost use Rattle.std.specs.Prelude.{◌≡◌};
ghost use Rattle.syntax.specs.Parsed.{refusal};
ghost use Rattle.syntax.specs.Working.Faults.{misplaced_at};

use lexical::kind;
use lexical::token::Token;

// The reason is a whole word: a copy of a byte and what is beside it waits for the stores of both.
#[derive(Clone, Copy)]
pub struct Fault {
    pub reason: usize,
    pub place: usize,
}

// What was lent does not suffice; or, of an identifier, there is no fault.
pub const NO_ROOM: usize = 0;

pub const NO_TOKEN: usize = 1;

pub const NO_CONTINUATION: usize = 2;

pub const WRONG_LINE: usize = 3;

pub const WRONG_NAME: usize = 4;

pub const OUT_OF_RANGE: usize = 5;

pub const WRONG_VERSION: usize = 6;

pub const OVER_LIMIT: usize = 7;

pub const UNVERIFIED: usize = 9;

pub const UNIDENTIFIED: usize = 10;

// The reason against a token of this kind where the field's grammar has none.
pub fn refusal_of(k: usize) -> usize
    ensures { result ≡ refusal k }
{
    if k == kind::ILLEGAL {
        return NO_TOKEN;
    }
    if k == kind::BAD_LINE {
        return WRONG_LINE;
    }
    NO_CONTINUATION
}

// The fault of a token that may not stand where it stands.
pub fn misplaced(t: Token) -> Fault
    ensures { result ≡ misplaced_at t }
{
    Fault {
        reason: refusal_of(t.kind),
        place: t.start,
    }
}
