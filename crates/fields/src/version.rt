// KeyNote-Version.
ghost use Rattle.std.specs.Prelude.{◌≡◌};
ghost use Rattle.text.specs.Equal.{equal};
ghost use Rattle.lexical.specs.Literal.{decoded_at};
ghost use Rattle.lexical.specs.Number.{number_at};
ghost use Rattle.fields.specs.Version.{two, version_number, version_literal, version};
ghost use Rattle.fields.specs.Working.Outs.{out_of};

use crate::out::{ended, unexpected};
use lexical::kind;
use lexical::line::token_at;
use lexical::literal::{decode_into, literal_length};
use lexical::number::{LIMIT, number_at};
use lexical::token::Token;
use syntax::fault::{Fault, OUT_OF_RANGE, WRONG_VERSION};

// A version written in digits.
fn by_number(s: &[u8], t: Token) -> Result<Token, Fault>
    ensures { result ≡ out_of (version_number s.now t (number_at s.now t.start t.end)) }
{
    let n = number_at(s, t.start, t.end);
    if LIMIT <= n {
        return Err(Fault {
            reason: OUT_OF_RANGE,
            place: t.start,
        });
    }
    if n == 2 {
        return ended(token_at(s, kind::IN_FIELD, t.end));
    }
    Err(Fault {
        reason: WRONG_VERSION,
        place: t.start,
    })
}

// Does the literal at `start` give "2"?
fn is_two(s: &[u8], start: usize) -> bool
    ensures { result ≡ equal (decoded_at s.now start) two }
{
    if literal_length(s, start) != 1 {
        return false;
    }
    let mut b = [0u8; 1];
    if decode_into(s, start, &mut b, 0) {
        return b[0] == 50;
    }
    false
}

fn by_literal(s: &[u8], t: Token) -> Result<Token, Fault>
    ensures { result ≡ out_of (version_literal s.now t (decoded_at s.now t.start)) }
{
    if is_two(s, t.start) {
        return ended(token_at(s, kind::IN_FIELD, t.end));
    }
    Err(Fault {
        reason: WRONG_VERSION,
        place: t.start,
    })
}

// The field whose first token is t.
pub fn version(s: &[u8], t: Token) -> Result<Token, Fault>
    ensures { result ≡ out_of (version s.now t) }
{
    if t.kind == kind::DIGITS {
        return by_number(s, t);
    }
    if t.kind == kind::LITERAL {
        return by_literal(s, t);
    }
    unexpected(t)
}
