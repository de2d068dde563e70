// "Integers are 32-bit signed": each operation gives an integer of that range, or a fault.
ghost use Rattle.std.specs.Prelude.{◌≡◌, not, ◌+◌, min};
ghost use Rattle.expression.specs.Value.{operand};
ghost use Rattle.expression.specs.Integers.{differ, odd, sign_of_power, raised_to, ranged, apart, plus, minus, times, over, remainder, power, negated, sizes, compared};

use crate::value::Operand;
use std::cmp::Ordering;
use text::Integer;

// The size of the least integer.
const LEAST: u64 = 2147483648;

pub(crate) fn opposite(negative: bool) -> bool
    ensures { result ≡ not negative }
{
    if negative {
        return false;
    }
    true
}

fn signs_differ(a: bool, b: bool) -> bool
    ensures { result ≡ differ a b }
{
    if a {
        return opposite(b);
    }
    b
}

// The integer with that sign and size, or a fault where it is out of range.
pub fn in_range(negative: bool, size: u64) -> Operand
    ensures { result ≡ operand (ranged negative size) }
{
    if size == 0 {
        return Operand::Number {
            negative: false,
            size: 0,
        };
    }
    if negative {
        if LEAST < size {
            return Operand::Fault;
        }
        return Operand::Number {
            negative: true,
            size,
        };
    }
    if LEAST <= size {
        return Operand::Fault;
    }
    Operand::Number {
        negative: false,
        size,
    }
}

// The sum of two sizes.
fn together(negative: bool, x: u64, y: u64) -> Operand
    ensures { result ≡ operand (ranged negative (x + y)) }
{
    if LEAST < x {
        return Operand::Fault;
    }
    if LEAST < y {
        return Operand::Fault;
    }
    in_range(negative, x + y)
}

// A size less another; the sign turns where the other is more.
fn less(negative: bool, x: u64, y: u64) -> Operand
    ensures { result ≡ operand (apart negative x y) }
{
    if y <= x {
        return in_range(negative, x - y);
    }
    in_range(opposite(negative), y - x)
}

pub fn add(a: Integer, b: Integer) -> Operand
    ensures { result ≡ operand (plus a b) }
{
    if a.negative {
        if b.negative {
            return together(true, a.size, b.size);
        }
        return less(true, a.size, b.size);
    }
    if b.negative {
        return less(false, a.size, b.size);
    }
    together(false, a.size, b.size)
}

pub fn negate(a: Integer) -> Operand
    ensures { result ≡ operand (negated a) }
{
    in_range(opposite(a.negative), a.size)
}

pub fn subtract(a: Integer, b: Integer) -> Operand
    ensures { result ≡ operand (minus a b) }
{
    let c = Integer {
        negative: opposite(b.negative),
        size: b.size,
    };
    add(a, c)
}

pub fn multiply(a: Integer, b: Integer) -> Operand
    ensures { result ≡ operand (times a b) }
{
    let n = signs_differ(a.negative, b.negative);
    if a.size == 0 {
        return in_range(n, 0);
    }
    if b.size == 0 {
        return in_range(n, 0);
    }
    if LEAST < a.size {
        return Operand::Fault;
    }
    if LEAST < b.size {
        return Operand::Fault;
    }
    in_range(n, a.size * b.size)
}

// "Division goes toward zero."
pub fn divide(a: Integer, b: Integer) -> Operand
    ensures { result ≡ operand (over a b) }
{
    let n = signs_differ(a.negative, b.negative);
    if b.size == 0 {
        return Operand::Fault;
    }
    in_range(n, a.size / b.size)
}

// "% has the dividend's sign."
pub fn rest(a: Integer, b: Integer) -> Operand
    ensures { result ≡ operand (remainder a b) }
{
    if b.size == 0 {
        return Operand::Fault;
    }
    in_range(a.negative, a.size % b.size)
}

fn is_odd(n: u64) -> bool
    ensures { result ≡ odd n }
{
    n % 2 == 1
}

// x to the n, held just above the range: at most 32 multiplications where x is 2 or more, else none.
fn raise(x: u64, n: u64) -> u64
    ensures { result ≡ min (raised_to 1 x n) 2147483649 }
{
    if n == 0 {
        return 1;
    }
    if x <= 1 {
        return x;
    }
    if LEAST < x {
        return 2147483649;
    }
    let mut v: u64 = 1;
    for _left in (0..n).rev() {
        v = v * x;
        if LEAST < v {
            return 2147483649;
        }
    }
    v
}

fn sign_of_power(negative: bool, n: u64) -> bool
    ensures { result ≡ sign_of_power negative n }
{
    if is_odd(n) {
        return negative;
    }
    false
}

// "x^0 = 1"; a negative exponent is a fault.
pub fn raise_to(a: Integer, b: Integer) -> Operand
    ensures { result ≡ operand (power a b) }
{
    if b.size == 0 {
        return Operand::Number {
            negative: false,
            size: 1,
        };
    }
    if b.negative {
        return Operand::Fault;
    }
    let n = sign_of_power(a.negative, b.size);
    let m = raise(a.size, b.size);
    in_range(n, m)
}

pub fn order_of(a: Integer, b: Integer) -> Ordering
    ensures { result ≡ compared a b }
{
    match (a.negative, b.negative) {
        (true, true) => b.size.cmp(&a.size),
        (true, false) => Ordering::Less,
        (false, true) => Ordering::Greater,
        (false, false) => a.size.cmp(&b.size),
    }
}
