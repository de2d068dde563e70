// Field labels with their colons.
ghost use Rattle.std.specs.Prelude.{◌≡◌};
ghost use Rattle.lexical.specs.Label.{label_kind};

use crate::kind;
use crate::word::stands_at;

// The kind of the label that stands at i, or BAD_LINE where none does.
#[tactic(auto, unfolding(crate::specs::Label::label_kind))]
pub fn label_kind(s: &[u8], i: usize) -> usize
    ensures { result ≡ label_kind s.now i }
{
    if stands_at(s, i, b"keynote-version:") {
        kind::KEYNOTE_VERSION
    } else if stands_at(s, i, b"local-constants:") {
        kind::LOCAL_CONSTANTS
    } else if stands_at(s, i, b"authorizer:") {
        kind::AUTHORIZER
    } else if stands_at(s, i, b"licensees:") {
        kind::LICENSEES
    } else if stands_at(s, i, b"conditions:") {
        kind::CONDITIONS
    } else if stands_at(s, i, b"comment:") {
        kind::COMMENT
    } else if stands_at(s, i, b"signature:") {
        kind::SIGNATURE
    } else {
        kind::BAD_LINE
    }
}
