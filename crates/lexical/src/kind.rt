// The kinds of token, and where in a text a token is looked for; specs/Kind.antt says what each is.
ghost use Rattle.std.specs.Prelude.{◌≡◌};
ghost use Rattle.lexical.specs.Kind.{opened, mode_after};
ghost use Rattle.lexical.specs.Reason.{reason_of};
ghost use Rattle.lexical.specs.Found.{found};

pub const END: usize = 0;

pub const ILLEGAL: usize = 1;

pub const NEXT: usize = 2;

pub const BAD_LINE: usize = 3;

pub const KEYNOTE_VERSION: usize = 4;

pub const LOCAL_CONSTANTS: usize = 5;

pub const AUTHORIZER: usize = 6;

pub const LICENSEES: usize = 7;

pub const CONDITIONS: usize = 8;

pub const COMMENT: usize = 9;

pub const SIGNATURE: usize = 10;

pub const LITERAL: usize = 11;

pub const NAME: usize = 12;

pub const DIGITS: usize = 13;

pub const FLOAT: usize = 14;

pub const OF: usize = 15;

pub const ARROW: usize = 16;

pub const AND: usize = 17;

pub const OR: usize = 18;

pub const EQUAL: usize = 19;

pub const UNEQUAL: usize = 20;

pub const AT_MOST: usize = 21;

pub const AT_LEAST: usize = 22;

pub const MATCHES: usize = 23;

pub const OPEN: usize = 24;

pub const CLOSE: usize = 25;

pub const OPEN_BRACE: usize = 26;

pub const CLOSE_BRACE: usize = 27;

pub const COMMA: usize = 28;

pub const SEMICOLON: usize = 29;

pub const ASSIGN: usize = 30;

pub const NOT: usize = 31;

pub const LESS: usize = 32;

pub const GREATER: usize = 33;

pub const DOT: usize = 34;

pub const DOLLAR: usize = 35;

pub const AT: usize = 36;

pub const AMPERSAND: usize = 37;

pub const PLUS: usize = 38;

pub const MINUS: usize = 39;

pub const TIMES: usize = 40;

pub const DIVIDE: usize = 41;

pub const REMAINDER: usize = 42;

pub const POWER: usize = 43;

pub const BEFORE: u8 = 0;

pub const IN_LICENSEES: u8 = 1;

pub const IN_COMMENT: u8 = 2;

pub const IN_FIELD: u8 = 3;

// Where the text goes on behind a label of this kind.
#[tactic(auto, unfolding(crate::specs::Kind::opened))]
pub fn mode_of(kind: usize) -> u8
    ensures { result ≡ opened kind }
{
    match kind {
        LICENSEES => IN_LICENSEES,
        COMMENT => IN_COMMENT,
        _ => IN_FIELD,
    }
}

// Where it goes on behind any token.
#[tactic(auto, unfolding(crate::specs::Kind::mode_after))]
pub fn mode_after(mode: u8, kind: usize) -> u8
    ensures { result ≡ mode_after mode kind }
{
    match kind {
        KEYNOTE_VERSION..=SIGNATURE => mode_of(kind),
        _ => mode,
    }
}

// The reason for a fault of this kind; its place is the token's start.
#[tactic(auto, unfolding(crate::specs::Reason::reason_of))]
pub fn reason_of(kind: usize) -> Option<u8>
    ensures { result ≡ found (reason_of kind) }
{
    match kind {
        ILLEGAL => Some(1),
        BAD_LINE => Some(3),
        _ => None,
    }
}
