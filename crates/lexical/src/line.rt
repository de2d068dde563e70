// Lines, and the token that comes next in a text.
ghost use Rattle.std.specs.Prelude.{◌≡◌};
ghost use Rattle.lexical.specs.Line.{rest_of_line, visible, in_line, blank_to, indented, line_at, lines_from, token_at};
ghost use Rattle.lexical.specs.Token.{fixed};
ghost use Rattle.lexical.specs.Label.{label_kind};
ghost use Rattle.lexical.specs.Working.Open.{completed, below_of};

use crate::class::{is_break, is_hash, is_indent, is_newline};
use crate::kind;
use crate::label::label_kind;
use crate::scan::{Run, byte_at};
use crate::token::{Token, completed, literal_from, token_from, width};

// What comes behind the rest of a line that is hidden or free text.
#[tactic(auto, unfolding(crate::specs::Line::rest_of_line))]
fn rest_of_line(s: &[u8], i: usize) -> Token
    ensures { result ≡ rest_of_line s.now i }
{
    let e = Run::Free.end(s, i);
    if s.len() <= e {
        return Token::empty(kind::END, s.len());
    }
    if s[e] == 0 {
        return Token::empty(kind::ILLEGAL, e);
    }
    Token::empty(kind::NEXT, e + 1)
}

// What stands at i, behind the blanks; a literal may be left open.
#[tactic(auto, using(crate::proofs::LineWays::seen))]
fn visible_at(s: &[u8], mode: u8, i: usize) -> Token
    ensures { completed s.now result ≡ visible s.now mode i }
{
    if s.len() <= i {
        return Token::empty(kind::END, s.len());
    }
    let b = s[i];
    if is_break(b) {
        if is_newline(b) {
            return Token::empty(kind::NEXT, i + 1);
        }
        return rest_of_line(s, i);
    }
    token_from(s, mode, i)
}

// What comes next inside a line; a literal may be left open.
#[tactic(auto, using(crate::proofs::LineWays::inside))]
fn in_line(s: &[u8], mode: u8, i: usize) -> Token
    ensures { completed s.now result ≡ in_line s.now mode i }
{
    if mode == kind::IN_COMMENT {
        return rest_of_line(s, i);
    }
    let e = Run::Blanks.end(s, i);
    visible_at(s, mode, e)
}

// Does the line whose blanks end at e hold nothing else?
#[tactic(auto, unfolding(crate::specs::Line::blank_to))]
fn is_blank_to(s: &[u8], e: usize) -> bool
    ensures { result ≡ blank_to s.now e }
{
    s.len() <= e || is_newline(s[e])
}

// A line that begins with blanks, which end at e.
#[tactic(auto, unfolding(crate::specs::Line::indented))]
fn indented_line(s: &[u8], mode: u8, i: usize, e: usize) -> Token
    ensures { result ≡ indented s.now mode i e }
{
    if mode != kind::BEFORE {
        let t = in_line(s, mode, i);
        return completed(s, t);
    }
    if is_hash(byte_at(s, e, 0)) {
        return rest_of_line(s, e);
    }
    Token::empty(kind::BAD_LINE, i)
}

// The label at i, or a bad line where none stands there.
#[tactic(auto, using(crate::proofs::LineWays::label))]
fn label_token(s: &[u8], i: usize) -> Token
    ensures { result ≡ fixed (label_kind s.now i) i }
{
    let k = label_kind(s, i);
    Token::new(k, i, i + width(k))
}

// What a line that begins at i gives.
#[tactic(auto, unfolding(crate::specs::Line::line_at))]
fn line_at(s: &[u8], mode: u8, i: usize) -> Token
    ensures { result ≡ line_at s.now mode i }
{
    if s.len() <= i {
        return Token::empty(kind::END, s.len());
    }
    let e = Run::Blanks.end(s, i);
    if is_blank_to(s, e) {
        return Token::empty(kind::BAD_LINE, i);
    }
    let b = s[i];
    if is_hash(b) {
        return rest_of_line(s, i);
    }
    if is_indent(b) {
        return indented_line(s, mode, i, e);
    }
    label_token(s, i)
}

// What the lines from i on give.
#[tactic(auto, using(crate::proofs::LineWays::lines))]
fn lines_from(s: &[u8], mode: u8, from: usize) -> Token
    ensures { result ≡ lines_from s.now mode from }
{
    // Kept: a turn goes on behind a line, so there is no range to go over.
    let mut i = from;
    loop {
        let t = line_at(s, mode, i);
        if t.kind != kind::NEXT {
            return t;
        }
        i = t.end;
    }
}

// What comes behind an open literal's plain bytes, or in the lines from `end` on.
#[tactic(auto, unfolding(crate::specs::Working::Open::below_of))]
fn below(s: &[u8], mode: u8, start: usize, end: usize) -> Token
    ensures { result ≡ below_of s.now mode start end }
{
    if start != end {
        return literal_from(s, start, end);
    }
    lines_from(s, mode, end)
}

// The token that comes next where the one before ended at `at`, which is 0 at the text's start.
#[tactic(auto, using(crate::proofs::LineWays::next))]
pub fn token_at(s: &[u8], mode: u8, at: usize) -> Token
    ensures { result ≡ token_at s.now mode at }
{
    if at == 0 {
        return below(s, mode, 0, 0);
    }
    let t = in_line(s, mode, at);
    if t.kind == kind::NEXT {
        return below(s, mode, t.start, t.end);
    }
    t
}
