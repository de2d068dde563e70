// Signature.
ghost use Rattle.std.specs.Prelude.{◌≡◌, leb, length};
ghost use Rattle.lexical.specs.Literal.{decoded_at};
ghost use Rattle.limits.specs.Limits.{most_literal};
ghost use Rattle.fields.specs.Signature.{signature};
ghost use Rattle.fields.specs.Working.Outs.{out_of};

use crate::out::unexpected;
use lexical::kind;
use lexical::literal::{is_sized, literal_length};
use lexical::token::Token;
use limits::MOST_LITERAL;
use syntax::fault::{Fault, OVER_LIMIT};

// Does the literal t give no more bytes than it may? It is scanned only where its end does not tell.
pub fn is_fitting(s: &[u8], t: Token) -> bool
    ensures { result ≡ leb (length (decoded_at s.now t.start)) most_literal }
{
    if is_sized(s, t.start, t.end, MOST_LITERAL) {
        return true;
    }
    literal_length(s, t.start) <= MOST_LITERAL
}

// The field whose first token is t. What is read ends where the token handed back ends.
pub fn signature(s: &[u8], t: Token) -> Result<Token, Fault>
    ensures { result ≡ out_of (signature s.now t) }
{
    if t.kind != kind::LITERAL {
        return unexpected(t);
    }
    if !is_fitting(s, t) {
        return Err(Fault {
            reason: OVER_LIMIT,
            place: t.start,
        });
    }
    Ok(t)
}
