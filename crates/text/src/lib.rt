// Byte strings: equality, order, copying, joining, counted strings and decimal numbers, as the layers above need them.
#![tactic(auto)]

mod long;

ghost use Rattle.std.specs.Prelude.{◌≡◌, ◌&&◌, map, ◌++◌, ◌+◌, ◌-◌, ◌*◌, ◌≤◌, ◌<◌, min, leb, length, take};
ghost use Rattle.text.specs.Choice.{pick};
ghost use Rattle.text.specs.Scan.{run, past};
ghost use Rattle.text.specs.Equal.{equal};
ghost use Rattle.text.specs.Order.{order};
ghost use Rattle.text.specs.Copy.{copied, put, copy_at};
ghost use Rattle.text.specs.Class.{is_digit, is_letter, is_word, in_class, numbered};
ghost use Rattle.text.specs.Counted.{pair_at, counted};
ghost use Rattle.text.specs.Put.{put_pair, put_counted};
ghost use Rattle.text.specs.Join.{joined};
ghost use Rattle.text.specs.Digits.{digits_at, value};
ghost use Rattle.text.specs.Decimal.{in_range, rounded_down, with_fraction, unsigned, decimal};
ghost use Rattle.text.specs.Working.Common.{common, common_from};
ghost use Rattle.text.specs.Working.Blocks.{alike};
ghost use Rattle.text.specs.Working.Holding.{most_held, hold};
ghost use Rattle.text.specs.Working.Joining.{comma};

pub use long::same_long;
use std::cmp::Ordering;

// An integer: a sign and a size; 0 has no sign.
#[derive(Clone, Copy)]
pub struct Integer {
    pub negative: bool,
    pub size: u64,
}

// The classes of bytes that a front of a string is made of.
#[derive(Clone, Copy, PartialEq, Eq)]
pub enum Class {
    // Any but 0.
    Plain,
    Digit,
    // Letters with digits and underscores.
    Word,
}

// A number is held here: numbers below it are told apart.
pub const MOST_HELD: u64 = 4294967295;

const ZERO: Integer = Integer {
    negative: false,
    size: 0,
};

// Are the n bytes from i on the same in both? The loop has no early end, so that many bytes are compared at once.
fn same_part(a: &[u8], b: &[u8], i: usize, n: usize) -> bool
    requires { (i + n ≤ length a.now) × (i + n ≤ length b.now) }
    ensures { result ≡ alike a.now b.now i n }
{
    let mut same = true;
    for j in 0..n {
        same &= a[i + j] == b[i + j];
    }
    same
}

// Are the first n blocks the same in both? The last ones first.
fn same_below(a: &[u8], b: &[u8], n: usize) -> bool
    requires { (n * 64 ≤ length a.now) × (n * 64 ≤ length b.now) }
    ensures { result ≡ equal (take (n * 64) a.now) (take (n * 64) b.now) }
{
    for k in (0..n).rev() {
        if !same_part(a, b, k * 64, 64) {
            return false;
        }
    }
    true
}

// Are the bytes from `low` on the same? Eight at a time, the last ones first; the lowest eight may reach below.
fn same_above(a: &[u8], b: &[u8], low: usize) -> bool
    requires { (length a.now ≡ length b.now) × (low ≤ length a.now) × (8 ≤ length a.now) }
    ensures { equal a.now b.now ≡ result && equal (take low a.now) (take low b.now) }
{
    let i = low + (a.len() - low) % 8;
    for k in (0..(a.len() - low) / 8).rev() {
        if !same_part(a, b, i + k * 8, 8) {
            return false;
        }
    }
    if i == low {
        return true;
    }
    if i < 8 {
        return same_part(a, b, 0, 8);
    }
    same_part(a, b, i - 8, 8)
}

// The same of fewer than eight bytes, from the last one on.
fn same_few(a: &[u8], b: &[u8]) -> bool
    requires { length a.now ≡ length b.now }
    ensures { result ≡ equal a.now b.now }
{
    for i in (0..a.len()).rev() {
        if a[i] != b[i] {
            return false;
        }
    }
    true
}

// Do both hold the same bytes? Strings that differ often share their beginnings, so the last bytes come first.
pub fn same_bytes(a: &[u8], b: &[u8]) -> bool
    ensures { result ≡ equal a.now b.now }
{
    if a.len() != b.len() {
        return false;
    }
    if a.len() < 8 {
        return same_few(a, b);
    }
    let k = a.len() / 64;
    same_above(a, b, k * 64) && same_below(a, b, k)
}

// The order by byte; a proper prefix is less.
#[tactic(auto, using(crate::specs::Working::Common::order_cmp))]
pub fn compare(a: &[u8], b: &[u8]) -> Ordering
    ensures { result ≡ order a.now b.now }
{
    a.cmp(b)
}

// Copies src into dst at a place where it fits.
#[tactic(auto, using(crate::specs::Working::Copying::pasting))]
fn paste(dst: &mut [u8], at: usize, src: &[u8])
    requires { (at ≤ length dst.old) × (length src.now ≤ length dst.old - at) }
    ensures { dst.new ≡ put dst.old at src.now }
{
    dst[at..at + src.len()].copy_from_slice(src);
}

// Copies src into dst at a place, and tells whether it fits; where it doesn't, nothing is written.
#[tactic(auto, using(crate::specs::Choice::tests), unfolding(crate::specs::Copy::copy_at))]
pub fn copy_at(dst: &mut [u8], at: usize, src: &[u8]) -> bool
    ensures { copied result dst.new ≡ copy_at dst.old at src.now }
{
    if dst.len() < at || dst.len() - at < src.len() {
        return false;
    }
    paste(dst, at, src);
    true
}

#[tactic(auto, using(crate::specs::Choice::tests), unfolding(crate::specs::Class::is_digit))]
pub fn is_digit(b: u8) -> bool
    ensures { result ≡ is_digit b }
{
    b.is_ascii_digit()
}

#[tactic(auto, using(crate::specs::Choice::tests), unfolding(crate::specs::Class::is_letter))]
pub fn is_letter(b: u8) -> bool
    ensures { result ≡ is_letter b }
{
    b.is_ascii_alphabetic()
}

// A letter, a digit or the underscore; small letters are the commonest, and are told by two comparisons.
#[tactic(auto, using(crate::specs::Choice::tests), unfolding(crate::specs::Class::is_word, crate::specs::Class::is_letter, crate::specs::Class::is_digit))]
pub fn is_word(b: u8) -> bool
    ensures { result ≡ is_word b }
{
    if b'a' <= b {
        return b <= b'z';
    }
    if b <= b'9' {
        return b'0' <= b;
    }
    b == b'_' || is_letter(b)
}

impl Class {
    // The class of a number: plain bytes, digits, and words from 2 on.
    pub fn numbered(k: u8) -> Class
        ensures { result ≡ numbered k }
    {
        match k {
            0 => Class::Plain,
            1 => Class::Digit,
            _ => Class::Word,
        }
    }

    #[tactic(auto, using(crate::specs::Choice::tests), unfolding(crate::specs::Class::in_class, crate::specs::Class::is_plain))]
    pub fn contains(self, b: u8) -> bool
        ensures { result ≡ in_class self b }
    {
        match self {
            Class::Plain => b != 0,
            Class::Digit => is_digit(b),
            Class::Word => is_word(b),
        }
    }
}

// How many bytes at the front are of the class.
#[tactic(auto, using(crate::specs::Scan::scan))]
pub fn front(s: &[u8], class: Class) -> usize
    ensures { result ≡ run (in_class class) s.now }
{
    for (i, b) in s.iter().enumerate() {
        if !class.contains(*b) {
            return i;
        }
    }
    s.len()
}

// The end of the word that starts at a place: letters, digits and underscores.
#[tactic(auto, using(crate::specs::Scan::scan))]
pub fn word_end(s: &[u8], at: usize) -> usize
    ensures { result ≡ past is_word s.now at }
{
    for i in at..s.len() {
        if !is_word(s[i]) {
            return i;
        }
    }
    at.max(s.len())
}

// The number in two bytes, big-endian; a byte past the end counts as 0.
pub fn pair_at(s: &[u8], at: usize) -> usize
    ensures { result ≡ pair_at s.now at }
{
    if s.len() <= at {
        return 0;
    }
    let high = usize::from(s[at]) * 256;
    if s.len() - at <= 1 {
        return high;
    }
    high + usize::from(s[at + 1])
}

// The string that starts at a place, its length in the two bytes before it; empty where it doesn't fit.
#[tactic(auto, using(crate::specs::Choice::tests), unfolding(crate::specs::Counted::counted, crate::specs::Counted::part))]
pub fn counted_at(s: &[u8], at: usize) -> &[u8]
    ensures { result.now ≡ counted s.now at }
{
    if at < 2 || s.len() < at {
        return &s[..0];
    }
    let n = pair_at(s, at - 2);
    if s.len() - at < n {
        return &s[..0];
    }
    &s[at..at + n]
}

// Writes a number below 65,536 in two bytes, big-endian, at a place, and tells whether it did; where it doesn't fit, nothing is written.
#[tactic(auto, using(crate::specs::Choice::tests), unfolding(crate::specs::Put::put_pair, crate::specs::Counted::pair_bytes))]
pub fn put_pair(dst: &mut [u8], at: usize, n: usize) -> bool
    ensures { copied result dst.new ≡ put_pair dst.old at n }
{
    let Ok(n) = u16::try_from(n) else {
        return false;
    };
    copy_at(dst, at, &n.to_be_bytes())
}

// Writes a string behind its two-byte length at a place, and tells whether it did; where it doesn't fit, nothing is written.
pub fn put_counted(dst: &mut [u8], at: usize, b: &[u8]) -> bool
    ensures { copied result dst.new ≡ put_counted dst.old at b.now }
{
    if 65535 < b.len() || dst.len() < at || dst.len() - at < 2 {
        return false;
    }
    copy_at(dst, at + 2, b) && put_pair(dst, at, b.len())
}

// The length of the comma before string i: none before the first.
fn lead(i: usize) -> usize
    ensures { result ≡ length (comma i) }
{
    usize::from(i > 0)
}

// Does the joined text fit into so many bytes?
fn joined_fits(s: &[u8], places: &[usize], room: usize) -> bool
    ensures { result ≡ leb (length (joined (map (counted s.now) places.now))) room }
{
    let mut left = room;
    for i in 0..places.len() {
        let c = lead(i);
        let n = counted_at(s, places[i]).len();
        if left < c || left - c < n {
            return false;
        }
        left = left - c - n;
    }
    true
}

// Copies string i of a joined text: behind a comma, unless it is the first.
fn copy_item(dst: &mut [u8], at: usize, i: usize, item: &[u8]) -> bool
    ensures { copied result dst.new ≡ copy_at dst.old at (comma i ++ item.now) }
{
    if i == 0 {
        return copy_at(dst, at, item);
    }
    if dst.len() <= at {
        return false;
    }
    if copy_at(dst, at + 1, item) {
        dst[at] = b',';
        return true;
    }
    false
}

fn write_joined(dst: &mut [u8], at: usize, s: &[u8], places: &[usize])
    requires { at + length (joined (map (counted s.now) places.now)) ≤ length dst.old }
    ensures { dst.new ≡ put dst.old at (joined (map (counted s.now) places.now)) }
{
    let mut to = at;
    for i in 0..places.len() {
        let item = counted_at(s, places[i]);
        copy_item(dst, to, i, item);
        to = to + lead(i) + item.len();
    }
}

// Joins the strings at the places with commas, into dst at a place; where they don't fit, nothing is written.
pub fn join_at(dst: &mut [u8], at: usize, s: &[u8], places: &[usize]) -> bool
    ensures { copied result dst.new ≡ copy_at dst.old at (joined (map (counted s.now) places.now)) }
{
    if dst.len() < at || !joined_fits(s, places, dst.len() - at) {
        return false;
    }
    write_joined(dst, at, s, places);
    true
}

// One digit more, held at MOST_HELD.
#[tactic(auto, using(crate::specs::Choice::tests), unfolding(crate::specs::Working::Holding::hold))]
fn hold_digit(v: u64, b: u8) -> u64
    ensures { result ≡ hold v b }
{
    let digit = u64::from(b.saturating_sub(b'0'));
    (v.min(MOST_HELD) * 10 + digit).min(MOST_HELD)
}

// The number that the digits write, held at MOST_HELD.
pub fn number(digits: &[u8]) -> u64
    ensures { result ≡ min (value digits.now) most_held }
{
    digits.iter().fold(0, |v, &b| hold_digit(v, b))
}

// The number whose digits start at a place, held at MOST_HELD; 0 where none do.
pub fn number_from(s: &[u8], at: usize) -> u64
    ensures { result ≡ min (value (digits_at s.now at)) most_held }
{
    let mut v = 0;
    for i in at..s.len() {
        if !is_digit(s[i]) {
            return v;
        }
        v = hold_digit(v, s[i]);
    }
    v
}

// The greatest size of a sign.
fn largest(negative: bool) -> u64
    ensures { result ≡ pick negative 2147483648 2147483647 }
{
    if negative { 2147483648 } else { 2147483647 }
}

// The integer, or 0 where it is out of range.
#[tactic(auto, using(crate::specs::Choice::tests), unfolding(crate::specs::Decimal::in_range))]
fn in_range(negative: bool, size: u64) -> Integer
    ensures { result ≡ in_range negative size }
{
    if size == 0 || largest(negative) < size {
        return ZERO;
    }
    Integer { negative, size }
}

#[tactic(auto, using(crate::specs::Choice::tests), unfolding(crate::specs::Decimal::rounded_down))]
fn rounded_down(negative: bool, whole: u64, fraction: u64) -> Integer
    ensures { result ≡ rounded_down negative whole fraction }
{
    if negative && fraction != 0 {
        return in_range(negative, whole.saturating_add(1));
    }
    in_range(negative, whole)
}

#[tactic(auto, using(crate::specs::Choice::tests), unfolding(crate::specs::Decimal::with_fraction))]
fn with_fraction(negative: bool, whole: u64, digits: &[u8]) -> Integer
    ensures { result ≡ with_fraction negative whole digits.now }
{
    let j = front(digits, Class::Digit);
    if j == 0 || j < digits.len() {
        return ZERO;
    }
    rounded_down(negative, whole, number(digits))
}

fn without_sign(negative: bool, s: &[u8]) -> Integer
    ensures { result ≡ unsigned negative s.now }
{
    let k = front(s, Class::Digit);
    if k == 0 {
        return ZERO;
    }
    if s.len() <= k {
        return rounded_down(negative, number(s), 0);
    }
    if s[k] != b'.' {
        return ZERO;
    }
    with_fraction(negative, number(&s[..k]), &s[k + 1..])
}

// The integer that a text writes, rounded down; 0 where it writes none or one out of range.
pub fn to_integer(s: &[u8]) -> Integer
    ensures { result ≡ decimal s.now }
{
    let Some((first, rest)) = s.split_first() else {
        return ZERO;
    };
    if *first == b'-' {
        return without_sign(true, rest);
    }
    without_sign(false, s)
}
