// What a reader answers: the token behind what was read, or the first fault; and the tokens with which fields go on and end.
ghost use Rattle.std.specs.Prelude.{◌≡◌};
ghost use Rattle.syntax.specs.Parsed.{refusal};
ghost use Rattle.lexical.specs.Kind.{ending};
ghost use Rattle.fields.specs.Working.Word.{word_of};
ghost use Rattle.fields.specs.Working.Outs.{ended_out, refused_out};

use lexical::kind;
use lexical::token::Token;
use syntax::fault::{Fault, misplaced};

// Does a token of this kind end the field before it?
pub fn is_ending(k: usize) -> bool
    ensures { result ≡ ending k }
{
    if k == kind::END {
        return true;
    }
    if k < kind::KEYNOTE_VERSION {
        return false;
    }
    k <= kind::SIGNATURE
}

// A token that may not stand where it stands.
pub fn unexpected(t: Token) -> Result<Token, Fault>
    ensures { result ≡ refused_out t }
{
    Err(misplaced(t))
}

// The end of a field at t.
pub fn ended(t: Token) -> Result<Token, Fault>
    ensures { result ≡ ended_out t }
{
    if is_ending(t.kind) {
        return Ok(t);
    }
    unexpected(t)
}

// The bytes of a token.
pub fn word(s: &[u8], t: Token) -> &[u8]
    ensures { result.now ≡ word_of s.now t }
{
    let from = t.start;
    let to = t.end;
    if to <= from {
        return &s[..0];
    }
    if s.len() <= from {
        return &s[..0];
    }
    if s.len() < to {
        return &s[from..];
    }
    &s[from..to]
}
