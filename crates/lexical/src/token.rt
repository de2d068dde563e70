// The token that starts at a place.
ghost use Rattle.std.specs.Prelude.{◌≡◌, get_or};
ghost use Rattle.lexical.specs.Class.{class_of, DIGIT};
ghost use Rattle.lexical.specs.Working.Common.{common_pair};
ghost use Rattle.lexical.specs.Token.{token, width_of, operator_at, operator_token, literal_token, float_end, number_token, token_from};
ghost use Rattle.lexical.specs.Working.Open.{literal_from, completed};

use crate::class::{begins_name, begins_number, is_quote};
use crate::fast::mark_token;
use crate::kind;
use crate::literal::{closes_at, plain_end, units_end};
use crate::operator::operator_kind;
use crate::scan::{Run, byte_at};

// A token of the text: its kind, its first byte, and the place behind its last byte. At the end and at a fault the two places are one.
#[derive(Clone, Copy)]
pub struct Token {
    pub kind: usize,
    pub start: usize,
    pub end: usize,
}

impl Token {
    // A token of a kind, from its first byte to the place behind its last.
    pub fn new(kind: usize, start: usize, end: usize) -> Token
        ensures { result ≡ token kind start end }
    {
        Token { kind, start, end }
    }

    // One that has no byte.
    pub fn empty(kind: usize, at: usize) -> Token
        ensures { result ≡ token kind at at }
    {
        Token::new(kind, at, at)
    }
}

// The bytes of a label with its colon or of an operator; 0 for the end and the faults.
#[tactic(auto, unfolding(crate::specs::Token::width_of))]
pub fn width(k: usize) -> usize
    ensures { result ≡ width_of k }
{
    match k {
        0..kind::KEYNOTE_VERSION => 0,
        kind::KEYNOTE_VERSION | kind::LOCAL_CONSTANTS => 16,
        kind::AUTHORIZER | kind::CONDITIONS => 11,
        kind::LICENSEES | kind::SIGNATURE => 10,
        kind::COMMENT => 8,
        kind::OF => 3,
        kind::LITERAL..kind::OPEN => 2,
        _ => 1,
    }
}

// The kind of the operator that stands at i, where a byte of class c stands, or ILLEGAL.
#[tactic(auto, unfolding(crate::specs::Token::operator_at))]
fn operator_at(s: &[u8], mode: u8, i: usize, c: usize) -> usize
    requires { c ≡ class_of (get_or s.now i 0) }
    ensures { result ≡ operator_at s.now mode i }
{
    operator_kind(mode, c, byte_at(s, i, 1), byte_at(s, i, 2))
}

#[tactic(auto, using(text::specs::Choice::tests, crate::proofs::TokenWays::operator), unfolding(crate::specs::Token::operator_token))]
pub(crate) fn operator_token(s: &[u8], mode: u8, i: usize, c: usize) -> Token
    requires { c ≡ class_of (get_or s.now i 0) }
    ensures { result ≡ operator_token s.now mode i }
{
    let k = operator_at(s, mode, i, c);
    Token::new(k, i, i + width(k))
}

// From its opening quote to behind its closing quote; one with more than plain bytes is left open, as a next line that has bytes: those before the first other one.
#[tactic(auto, using(crate::proofs::TokenWays::literal))]
fn literal_token(s: &[u8], i: usize) -> Token
    ensures { completed s.now result ≡ literal_token s.now i }
{
    if s.len() <= i {
        return Token::empty(kind::ILLEGAL, i);
    }
    let e = plain_end(s, i + 1);
    if closes_at(s, e) {
        return Token::new(kind::LITERAL, i, e + 1);
    }
    Token::new(kind::NEXT, i, e)
}

// The literal at i, from the unit at e on.
#[tactic(auto, unfolding(crate::specs::Working::Open::literal_from))]
pub fn literal_from(s: &[u8], i: usize, e: usize) -> Token
    ensures { result ≡ literal_from s.now i e }
{
    match units_end(s, e) {
        Some(end) => Token::new(kind::LITERAL, i, end),
        None => Token::empty(kind::ILLEGAL, i),
    }
}

// A token as it is, but an open literal to its end.
#[tactic(auto, unfolding(crate::specs::Working::Open::completed))]
pub fn completed(s: &[u8], t: Token) -> Token
    ensures { result ≡ completed s.now t }
{
    if t.kind != kind::NEXT || t.start == t.end {
        return t;
    }
    literal_from(s, t.start, t.end)
}

// The end of "." and digits at e, or e where they do not stand.
#[tactic(auto, unfolding(crate::specs::Token::float_end))]
fn float_end(s: &[u8], e: usize) -> usize
    ensures { result ≡ float_end s.now e }
{
    if s.len() <= e || s[e] != b'.' {
        return e;
    }
    let f = Run::Numerals.end(s, e + 1);
    if f <= e + 1 { e } else { f }
}

// Digits, of which the first stands at i, or a float literal.
#[tactic(auto, using(crate::proofs::TokenWays::number))]
fn number_token(s: &[u8], i: usize) -> Token
    requires { class_of (get_or s.now i 0) ≡ DIGIT }
    ensures { result ≡ number_token s.now i }
{
    let e = Run::Numerals.end(s, i + 1);
    let f = float_end(s, e);
    if f == e {
        return Token::new(kind::DIGITS, i, e);
    }
    Token::new(kind::FLOAT, i, f)
}

// The kind of a common operator of two bytes; ILLEGAL for any other two.
#[tactic(auto, unfolding(crate::specs::Working::Common::common_pair))]
fn common_pair(b: u8, x: u8) -> usize
    ensures { result ≡ common_pair b x }
{
    match (b, x) {
        (b'=', b'=') => kind::EQUAL,
        (b'&', b'&') => kind::AND,
        (b'|', b'|') => kind::OR,
        (b'-', b'>') => kind::ARROW,
        _ => kind::ILLEGAL,
    }
}

// The token that starts at i, by the class of its first byte; a literal may be left open.
#[tactic(auto, using(crate::proofs::TokenWays::from))]
pub fn token_from(s: &[u8], mode: u8, i: usize) -> Token
    ensures { completed s.now result ≡ token_from s.now mode i }
{
    let b = byte_at(s, i, 0);
    if begins_name(b) {
        return Token::new(kind::NAME, i, text::word_end(s, i + 1));
    }
    if begins_number(b) {
        return number_token(s, i);
    }
    if is_quote(b) {
        return literal_token(s, i);
    }
    let k = common_pair(b, byte_at(s, i, 1));
    if k != kind::ILLEGAL {
        return Token::new(k, i, i + 2);
    }
    mark_token(s, mode, i, b)
}
