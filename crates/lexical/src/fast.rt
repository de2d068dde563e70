// What promises the same as another function of this crate, and is here for speed alone.
ghost use Rattle.std.specs.Prelude.{◌≡◌, get_or};
ghost use Rattle.lexical.specs.Class.{class_of};
ghost use Rattle.lexical.specs.Working.Lone.{lone};
ghost use Rattle.lexical.specs.Token.{operator_token};

use crate::token::{Token, operator_token};
use crate::{class, kind};

// Kept: the class of a byte with which more than one operator begins, by comparisons; by the table for any other. It buys 8 % of floats of no numbers.
#[tactic(auto, unfolding(crate::specs::Class::class_of))]
fn class_of_first(b: u8) -> usize
    ensures { result ≡ class_of b }
{
    match b {
        b'=' => kind::ASSIGN,
        b'!' => kind::NOT,
        b'<' => kind::LESS,
        b'>' => kind::GREATER,
        b'&' => kind::AMPERSAND,
        b'-' => kind::MINUS,
        b'|' => class::BAR,
        _ => class::class_by_table(b),
    }
}

// Kept: `class_by_table`, common marks by comparisons. It buys 12 % of a text of 8,192 bytes.
#[tactic(auto, unfolding(crate::specs::Class::class_of))]
pub fn class_of(b: u8) -> usize
    ensures { result ≡ class_of b }
{
    match b {
        b'(' => kind::OPEN,
        b')' => kind::CLOSE,
        b',' => kind::COMMA,
        b';' => kind::SEMICOLON,
        b'.' => kind::DOT,
        b'$' => kind::DOLLAR,
        b'@' => kind::AT,
        b'+' => kind::PLUS,
        b'*' => kind::TIMES,
        _ => class_of_first(b),
    }
}

// Is it the class of an operator that begins no longer one?
#[tactic(auto, unfolding(crate::specs::Working::Lone::lone))]
fn is_lone(c: usize) -> bool
    ensures { result ≡ lone c }
{
    match c {
        kind::AMPERSAND | kind::MINUS => false,
        _ => kind::OPEN <= c && c < kind::ASSIGN || kind::DOT <= c,
    }
}

// Kept: `operator_token`, where the byte b stands at i: at once where no longer operator begins with it. It buys 7 % of clauses.
#[tactic(auto, using(crate::proofs::TokenWays::mark))]
pub(crate) fn mark_token(s: &[u8], mode: u8, i: usize, b: u8) -> Token
    requires { b ≡ get_or s.now i 0 }
    ensures { result ≡ operator_token s.now mode i }
{
    let c = class_of(b);
    if is_lone(c) {
        return Token::new(c, i, i + 1);
    }
    operator_token(s, mode, i, c)
}
