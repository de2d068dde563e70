// The class of each of the 256 byte values.
ghost use Rattle.std.specs.Prelude.{◌≡◌, eqb};
ghost use Rattle.lexical.specs.Class;
ghost use Rattle.lexical.specs.Class.{class_of, or};

pub const OTHER: usize = 0;

pub const BLANK: usize = 1;

pub const NEWLINE: usize = 2;

pub const LETTER: usize = 3;

pub const DIGIT: usize = 4;

pub const QUOTE: usize = 5;

pub const HASH: usize = 6;

pub const NUL: usize = 7;

pub const BAR: usize = 8;

pub const TILDE: usize = 9;

// Entry b is the class of byte b; a one-byte operator's class is its token's kind.
const CLASS: [u8; 256] = [
    7, 0, 0, 0, 0, 0, 0, 0, 0, 1, 2, 0, 0, 0, 0, 0, 0, 0, 0, 0, 0, 0, 0, 0, 0, 0, 0, 0, 0, 0, 0, 0,
    1, 31, 5, 6, 35, 42, 37, 0, 24, 25, 40, 38, 28, 39, 34, 41, 4, 4, 4, 4, 4, 4, 4, 4, 4, 4, 0,
    29, 32, 30, 33, 0, 36, 3, 3, 3, 3, 3, 3, 3, 3, 3, 3, 3, 3, 3, 3, 3, 3, 3, 3, 3, 3, 3, 3, 3, 3,
    3, 3, 0, 0, 0, 43, 3, 0, 3, 3, 3, 3, 3, 3, 3, 3, 3, 3, 3, 3, 3, 3, 3, 3, 3, 3, 3, 3, 3, 3, 3,
    3, 3, 3, 26, 8, 27, 9, 0, 0, 0, 0, 0, 0, 0, 0, 0, 0, 0, 0, 0, 0, 0, 0, 0, 0, 0, 0, 0, 0, 0, 0,
    0, 0, 0, 0, 0, 0, 0, 0, 0, 0, 0, 0, 0, 0, 0, 0, 0, 0, 0, 0, 0, 0, 0, 0, 0, 0, 0, 0, 0, 0, 0, 0,
    0, 0, 0, 0, 0, 0, 0, 0, 0, 0, 0, 0, 0, 0, 0, 0, 0, 0, 0, 0, 0, 0, 0, 0, 0, 0, 0, 0, 0, 0, 0, 0,
    0, 0, 0, 0, 0, 0, 0, 0, 0, 0, 0, 0, 0, 0, 0, 0, 0, 0, 0, 0, 0, 0, 0, 0, 0, 0, 0, 0, 0, 0, 0, 0,
    0, 0, 0, 0, 0, 0, 0, 0, 0,
];

// Tests of a byte's class that need no table. The commonest bytes leave by the first comparison: as one condition the compiler would drop it.
pub fn is_indent(b: u8) -> bool
    ensures { result ≡ eqb (class_of b) Class.BLANK }
{
    if b' ' < b {
        return false;
    }
    if b == b' ' {
        return true;
    }
    b == b'\t'
}

#[tactic(auto, using(crate::proofs::ClassWays::classes))]
pub fn is_newline(b: u8) -> bool
    ensures { result ≡ eqb (class_of b) Class.NEWLINE }
{
    b == b'\n'
}

pub fn begins_name(b: u8) -> bool
    ensures { result ≡ eqb (class_of b) Class.LETTER }
{
    if b < b'A' {
        return false;
    }
    if b'a' <= b {
        return b <= b'z';
    }
    b <= b'Z' || b == b'_'
}

pub fn begins_number(b: u8) -> bool
    ensures { result ≡ eqb (class_of b) Class.DIGIT }
{
    b.is_ascii_digit()
}

#[tactic(auto, using(crate::proofs::ClassWays::classes))]
pub fn is_quote(b: u8) -> bool
    ensures { result ≡ eqb (class_of b) Class.QUOTE }
{
    b == b'"'
}

#[tactic(auto, using(crate::proofs::ClassWays::classes))]
pub fn is_hash(b: u8) -> bool
    ensures { result ≡ eqb (class_of b) Class.HASH }
{
    b == b'#'
}

// Does it end what can be seen of a line: is it a newline or "#"?
pub fn is_break(b: u8) -> bool
    ensures { result ≡ or (eqb (class_of b) Class.NEWLINE) (eqb (class_of b) Class.HASH) }
{
    if b'#' < b {
        return false;
    }
    if is_newline(b) {
        return true;
    }
    is_hash(b)
}

// The class of any byte, by the table.
#[tactic(auto, using(crate::proofs::ClassWays::table))]
pub(crate) fn class_by_table(b: u8) -> usize
    ensures { result ≡ class_of b }
{
    usize::from(CLASS[usize::from(b)])
}
