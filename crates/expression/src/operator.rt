// The operators: each takes operands, a string with its bytes, and gives an operand.
ghost use Rattle.std.specs.Prelude.{◌≡◌, true, false, map, ◌++◌, ◌-◌, max, length};
ghost use Rattle.text.specs.Choice.{pick};
ghost use Rattle.text.specs.Counted.{counted};
ghost use Rattle.text.specs.Decimal.{integer as signed};
ghost use Rattle.expression.specs.Value.{operand, rank};
ghost use Rattle.expression.specs.Operands.{pack, value_of, holds_in, test_in};
ghost use Rattle.expression.specs.Integers.{ranged, apart};
ghost use Rattle.expression.specs.Operations.{answered, matched, valued, held, converted, negative, opposite as not-of, to_float, float_negative};
ghost use Rattle.expression.specs.Working.Numbered.{relates_by, arithmetic, textual, logical, ordered_by, floating, of_texts, of_integers, of_floats, of_tests, is_textual, binary_by};
ghost use Rattle.expression.specs.Conditions.{rank_of};
ghost use Rattle.expression.specs.Working.Clauses.{applied, combined};

use crate::integer::{add, divide, multiply, negate, opposite, order_of, raise_to, rest, subtract};
use crate::name::rank_of;
use crate::value::{
    Operand, Packed, float_in, holds_in, integer_in, is_float, is_number, is_test, is_text,
    pack_operand, rank_in, told,
};
use limits::MOST_STRING;
use std::cmp::Ordering;
use text::Integer;

// Does the comparison k hold of sides that stand so?
#[tactic(auto, using(crate::specs::Working::Operating::orders), unfolding(crate::specs::Working::Numbered::relates_by))]
fn relation(k: u32, o: Ordering) -> bool
    ensures { result ≡ relates_by k o }
{
    match k {
        0 => o.is_eq(),
        1 => o.is_ne(),
        2 => o.is_lt(),
        3 => o.is_gt(),
        4 => o.is_le(),
        _ => o.is_ge(),
    }
}

// op less k, and 0 where k is more.
fn minus(op: u32, k: u32) -> u32
    ensures { result ≡ op - k }
{
    if k < op {
        return op - k;
    }
    0
}

// Two integers.
fn of_integers(op: u32, a: Integer, b: Integer) -> Operand
    ensures { result ≡ operand (arithmetic op a b) }
{
    if op == syntax::POWER {
        return raise_to(a, b);
    }
    if op == syntax::TIMES {
        return multiply(a, b);
    }
    if op == syntax::OVER {
        return divide(a, b);
    }
    if op == syntax::REMAINDER {
        return rest(a, b);
    }
    if op == syntax::PLUS {
        return add(a, b);
    }
    if op == syntax::MINUS {
        return subtract(a, b);
    }
    let o = order_of(a, b);
    let k = minus(op, syntax::EQUAL);
    Operand::Test {
        holds: relation(k, o),
    }
}

// An integer without a sign, packed.
fn natural(size: u64) -> Packed
    ensures { result ≡ pack (operand (ranged false size)) }
{
    if size < 2147483648 {
        return Packed { kind: 1, size };
    }
    Packed { kind: 6, size: 0 }
}

// An integer below 0, packed.
fn below_zero(size: u64) -> Packed
    ensures { result ≡ pack (operand (ranged true size)) }
{
    if size == 0 {
        return Packed { kind: 1, size: 0 };
    }
    if size <= 2147483648 {
        return Packed { kind: 2, size };
    }
    Packed { kind: 6, size: 0 }
}

// The difference of two integers without a sign, packed.
fn difference(x: u64, y: u64) -> Packed
    ensures { result ≡ pack (operand (apart false x y)) }
{
    if y <= x {
        return natural(x - y);
    }
    below_zero(y - x)
}

// `of_integers` of two without a sign, the result packed: what is asked most is done here. It buys 11 % of integers.
pub fn of_naturals(op: u32, x: u64, y: u64) -> Packed
    ensures { result ≡ pack (operand (arithmetic op (signed false x) (signed false y))) }
{
    let a = Integer {
        negative: false,
        size: x,
    };
    let b = Integer {
        negative: false,
        size: y,
    };
    if op == syntax::PLUS {
        if x <= 2147483648 {
            if y <= 2147483648 {
                return natural(x + y);
            }
        }
    }
    if op == syntax::MINUS {
        return difference(x, y);
    }
    if op < syntax::EQUAL {
        return pack_operand(of_integers(op, a, b));
    }
    let o = order_of(a, b);
    let k = minus(op, syntax::EQUAL);
    told(relation(k, o))
}

// A string made of two.
fn join(a: &[u8], b: &[u8]) -> Operand
    ensures { result ≡ operand (held (a.now ++ b.now)) }
{
    if MOST_STRING < a.len() {
        return Operand::Fault;
    }
    if MOST_STRING < b.len() {
        return Operand::Fault;
    }
    let n = a.len() + b.len();
    if MOST_STRING < n {
        return Operand::Fault;
    }
    Operand::Text { length: n }
}

// What a pattern test gives: what is no pattern is a fault.
fn answer(x: Option<bool>) -> Operand
    ensures { result ≡ operand (answered x) }
{
    match x {
        Some(holds) => Operand::Test { holds },
        None => Operand::Fault,
    }
}

// The string a against the pattern b.
fn match_strings(a: &[u8], b: &[u8]) -> Operand
    ensures { result ≡ operand (matched a.now b.now) }
{
    answer(pattern::pattern_test(b, a))
}

// Two strings.
fn of_strings(op: u32, a: &[u8], b: &[u8]) -> Operand
    ensures { result ≡ operand (textual op a.now b.now) }
{
    if op == syntax::JOIN {
        return join(a, b);
    }
    if op == syntax::TEXT_EQUAL {
        return Operand::Test {
            holds: text::same_bytes(a, b),
        };
    }
    if op == syntax::TEXT_UNEQUAL {
        return Operand::Test {
            holds: opposite(text::same_bytes(a, b)),
        };
    }
    if op == syntax::MATCHES {
        return match_strings(a, b);
    }
    let o = text::compare(a, b);
    let k = minus(op, syntax::TEXT_EQUAL);
    Operand::Test {
        holds: relation(k, o),
    }
}

fn texts(op: u32, x: Operand, y: Operand, a: &[u8], b: &[u8]) -> Operand
    ensures { result ≡ operand (of_texts op (value_of x a.now) (value_of y b.now)) }
{
    if is_text(x) {
        if is_text(y) {
            return of_strings(op, a, b);
        }
        return Operand::Fault;
    }
    Operand::Fault
}

fn integers(op: u32, x: Operand, y: Operand, a: &[u8], b: &[u8]) -> Operand
    ensures { result ≡ operand (of_integers op (value_of x a.now) (value_of y b.now)) }
{
    if is_number(x) {
        if is_number(y) {
            return of_integers(op, integer_in(x), integer_in(y));
        }
        return Operand::Fault;
    }
    Operand::Fault
}

// What an operation on floats gives: an error is a fault.
fn value_of(x: Option<f32>) -> Operand
    ensures { result ≡ operand (valued x) }
{
    match x {
        Some(value) => Operand::Float { value },
        None => Operand::Fault,
    }
}

// The four comparisons of floats.
fn float_relation(op: u32, a: f32, b: f32) -> bool
    ensures { result ≡ ordered_by op a b }
{
    if op == syntax::FLOAT_LESS {
        return a < b;
    }
    if op == syntax::FLOAT_GREATER {
        return a > b;
    }
    if op == syntax::FLOAT_AT_MOST {
        return a <= b;
    }
    a >= b
}

// Two floats.
fn of_floats(op: u32, a: f32, b: f32) -> Operand
    ensures { result ≡ operand (floating op a b) }
{
    if op == syntax::FLOAT_POWER {
        return value_of(float::operation::raise_to(a, b));
    }
    if op == syntax::FLOAT_TIMES {
        return value_of(float::operation::multiply(a, b));
    }
    if op == syntax::FLOAT_OVER {
        return value_of(float::operation::divide(a, b));
    }
    if op == syntax::FLOAT_PLUS {
        return value_of(float::operation::add(a, b));
    }
    if op == syntax::FLOAT_MINUS {
        return value_of(float::operation::subtract(a, b));
    }
    Operand::Test {
        holds: float_relation(op, a, b),
    }
}

fn floats(op: u32, x: Operand, y: Operand, a: &[u8], b: &[u8]) -> Operand
    ensures { result ≡ operand (of_floats op (value_of x a.now) (value_of y b.now)) }
{
    if is_float(x) {
        if is_float(y) {
            return of_floats(op, float_in(x), float_in(y));
        }
        return Operand::Fault;
    }
    Operand::Fault
}

// The test that an operand is; a fault where it is none.
fn as_test(x: Operand) -> Operand
    ensures { result ≡ test_in x }
{
    if is_test(x) {
        return x;
    }
    Operand::Fault
}

// "&& and || go left to right and stop once decided."
fn tests(op: u32, x: Operand, y: Operand, a: &[u8], b: &[u8]) -> Operand
    ensures { result ≡ operand (of_tests op (value_of x a.now) (value_of y b.now)) }
{
    if is_test(x) {
        if op == syntax::BOTH {
            if holds_in(x) {
                return as_test(y);
            }
            return Operand::Test { holds: false };
        }
        if holds_in(x) {
            return Operand::Test { holds: true };
        }
        return as_test(y);
    }
    Operand::Fault
}

fn is_textual(op: u32) -> bool
    ensures { result ≡ is_textual op }
{
    if op == syntax::JOIN {
        return true;
    }
    if op <= syntax::MINUS {
        return false;
    }
    op <= syntax::MATCHES
}

// An operator of expressions on two operands.
fn binary(op: u32, x: Operand, y: Operand, a: &[u8], b: &[u8]) -> Operand
    ensures { result ≡ operand (binary_by op (value_of x a.now) (value_of y b.now)) }
{
    if is_textual(op) {
        return texts(op, x, y, a, b);
    }
    if op <= syntax::AT_LEAST {
        return integers(op, x, y, a, b);
    }
    if op <= syntax::FLOAT_AT_LEAST {
        return floats(op, x, y, a, b);
    }
    if op <= syntax::EITHER {
        return tests(op, x, y, a, b);
    }
    Operand::Fault
}

// The rank where the test holds, else 0.
fn gated(x: Operand, n: usize) -> usize
    ensures { result ≡ pick (holds_in x) n 0 }
{
    if holds_in(x) {
        return n;
    }
    0
}

// The rank of a clause's string, 0 where it is none of the compliance values.
fn rank_of_text(y: Operand, b: &[u8], query: &[u8], values: &[usize]) -> usize
    ensures { result ≡ rank_of (map (counted query.now) values.now) (value_of y b.now) }
{
    if is_text(y) {
        return rank_of(query, values, b);
    }
    0
}

fn higher(m: usize, n: usize) -> usize
    ensures { result ≡ max m n }
{
    if m < n {
        return n;
    }
    m
}

// An operation on two operands.
pub fn combine(
    op: u32,
    x: Operand,
    y: Operand,
    a: &[u8],
    b: &[u8],
    query: &[u8],
    values: &[usize],
) -> Operand
    ensures { result ≡ operand (combined (map (counted query.now) values.now) op (value_of x a.now) (value_of y b.now)) }
{
    if op <= syntax::EITHER {
        return binary(op, x, y, a, b);
    }
    if op == syntax::VALUED {
        let n = rank_of_text(y, b, query, values);
        return Operand::Rank { rank: gated(x, n) };
    }
    if op == syntax::NESTED {
        let n = rank_in(y);
        return Operand::Rank { rank: gated(x, n) };
    }
    let m = rank_in(x);
    let n = rank_in(y);
    Operand::Rank { rank: higher(m, n) }
}

fn convert(x: Operand, a: &[u8]) -> Operand
    ensures { result ≡ operand (converted (value_of x a.now)) }
{
    if is_text(x) {
        let i = text::to_integer(a);
        return Operand::Number {
            negative: i.negative,
            size: i.size,
        };
    }
    Operand::Fault
}

fn negate_operand(x: Operand, a: &[u8]) -> Operand
    ensures { result ≡ operand (negative (value_of x a.now)) }
{
    if is_number(x) {
        return negate(integer_in(x));
    }
    Operand::Fault
}

fn oppose(x: Operand, a: &[u8]) -> Operand
    ensures { result ≡ operand (not-of (value_of x a.now)) }
{
    if is_test(x) {
        return Operand::Test {
            holds: opposite(holds_in(x)),
        };
    }
    Operand::Fault
}

fn convert_to_float(x: Operand, a: &[u8]) -> Operand
    ensures { result ≡ operand (to_float (value_of x a.now)) }
{
    if is_text(x) {
        return Operand::Float {
            value: float::written::to_float(a),
        };
    }
    Operand::Fault
}

fn negate_float(x: Operand, a: &[u8]) -> Operand
    ensures { result ≡ operand (float_negative (value_of x a.now)) }
{
    if is_float(x) {
        return value_of(float::operation::negate(float_in(x)));
    }
    Operand::Fault
}

// The highest rank.
pub fn top_rank(values: &[usize]) -> usize
    ensures { result ≡ length values.now - 1 }
{
    if values.len() == 0 {
        return 0;
    }
    values.len() - 1
}

// An operation on one operand.
pub fn apply(op: u32, x: Operand, a: &[u8], query: &[u8], values: &[usize]) -> Operand
    ensures { result ≡ operand (applied (map (counted query.now) values.now) op (value_of x a.now)) }
{
    if op == syntax::CONVERT {
        return convert(x, a);
    }
    if op == syntax::NEGATE {
        return negate_operand(x, a);
    }
    if op == syntax::OPPOSITE {
        return oppose(x, a);
    }
    if op == syntax::TO_FLOAT {
        return convert_to_float(x, a);
    }
    if op == syntax::FLOAT_NEGATE {
        return negate_float(x, a);
    }
    let n = top_rank(values);
    Operand::Rank { rank: gated(x, n) }
}
