// Operators: which one begins with given bytes, by the longest reading.
ghost use Rattle.std.specs.Prelude.{◌≡◌};
ghost use Rattle.lexical.specs.Operator.{equal_pair, pair_of, mark_kind, is_of, operator_kind};

use crate::{class, kind};

// == != <= >= ~=, by the first byte's class.
#[tactic(auto, unfolding(crate::specs::Operator::equal_pair))]
fn equal_pair(c: usize) -> usize
    ensures { result ≡ equal_pair c }
{
    match c {
        kind::ASSIGN => kind::EQUAL,
        kind::NOT => kind::UNEQUAL,
        kind::LESS => kind::AT_MOST,
        kind::GREATER => kind::AT_LEAST,
        class::TILDE => kind::MATCHES,
        _ => kind::ILLEGAL,
    }
}

// An operator of two bytes, by the first one's class and the second.
#[tactic(auto, unfolding(crate::specs::Operator::pair_of))]
fn pair_of(c: usize, b: u8) -> usize
    ensures { result ≡ pair_of c b }
{
    match b {
        b'=' => equal_pair(c),
        b'>' if c == kind::MINUS => kind::ARROW,
        b'&' if c == kind::AMPERSAND => kind::AND,
        b'|' if c == class::BAR => kind::OR,
        _ => kind::ILLEGAL,
    }
}

// An operator of one byte: the class is its kind.
#[tactic(auto, unfolding(crate::specs::Operator::mark_kind))]
fn mark_kind(c: usize) -> usize
    ensures { result ≡ mark_kind c }
{
    if c < kind::OPEN { kind::ILLEGAL } else { c }
}

// Is it "-of", in Licensees?
#[tactic(auto, unfolding(crate::specs::Operator::is_of))]
fn is_of(mode: u8, c: usize, b: u8, d: u8) -> bool
    ensures { result ≡ is_of mode c b d }
{
    mode == kind::IN_LICENSEES && c == kind::MINUS && b == b'o' && d == b'f'
}

// The operator that begins with a byte of class c, then b and d; ILLEGAL where none does.
#[tactic(auto, unfolding(crate::specs::Operator::operator_kind))]
pub fn operator_kind(mode: u8, c: usize, b: u8, d: u8) -> usize
    ensures { result ≡ operator_kind mode c b d }
{
    if is_of(mode, c, b, d) {
        return kind::OF;
    }
    match pair_of(c, b) {
        kind::ILLEGAL => mark_kind(c),
        k => k,
    }
}
