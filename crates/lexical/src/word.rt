// Words in any case of letters: held against a text at a place, and the keywords.
ghost use Rattle.std.specs.Prelude.{◌≡◌, eqb};
ghost use Rattle.lexical.specs.Word.{lower, stands, spells, word_true, word_false};

use crate::scan::byte_at;

// Is c the small one of the byte b, or b itself where that is no capital letter? Held against a letter that is known it is two comparisons, which the
// labels of short texts need.
#[tactic(auto, using(text::specs::Choice::tests), unfolding(crate::specs::Word::lower))]
fn is_lower(b: u8, c: u8) -> bool
    ensures { result ≡ eqb (lower b) c }
{
    if b == c {
        return !c.is_ascii_uppercase();
    }
    c.is_ascii_lowercase() && b == c - 32
}

// Does the word w, in small letters, stand in s at `at` in any case? Behind the end there is NUL.
#[tactic(auto, using(crate::proofs::WordWays::standing))]
pub fn stands_at(s: &[u8], at: usize, w: &[u8]) -> bool
    ensures { result ≡ stands s.now at w.now }
{
    for (i, c) in w.iter().enumerate() {
        if !is_lower(byte_at(s, at, i), *c) {
            return false;
        }
    }
    true
}

// Are the bytes from start to end the word w?
#[tactic(auto, unfolding(crate::specs::Word::spells))]
fn is_word(s: &[u8], start: usize, end: usize, w: &[u8]) -> bool
    ensures { result ≡ spells s.now start end w.now }
{
    start <= end && end - start == w.len() && stands_at(s, start, w)
}

// Is the name from start to end "true", in any case?
pub fn is_true(s: &[u8], start: usize, end: usize) -> bool
    ensures { result ≡ spells s.now start end word_true }
{
    is_word(s, start, end, b"true")
}

// Is the name from start to end "false", in any case?
pub fn is_false(s: &[u8], start: usize, end: usize) -> bool
    ensures { result ≡ spells s.now start end word_false }
{
    is_word(s, start, end, b"false")
}
