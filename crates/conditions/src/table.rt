// Which token may stand where, and what each operator takes and gives; specs/Table.antt and specs/Working/Numbered.antt say what each number is.
ghost use Rattle.std.specs.Prelude.{◌≡◌, true, false, ◌<◌};
ghost use Rattle.text.specs.Choice.{pick};
ghost use Rattle.syntax.specs.Parsed.{refusal};
ghost use Rattle.conditions.specs.Table.{begins_string, begins_number, begins_float, stops};
ghost use Rattle.conditions.specs.Working.Numbered.{allows, begins, inside_level, fits, comparison, number_operator, float_operator, text_operator, test_operator, operator, prefix_operator, prefix_of, level_of, level_above, operand_of, operand_above, result_of, result_above, operand_level, operand_want, right_want, right_level, binds};

use lexical::kind;
use syntax;

pub const ANY: usize = 0;

pub const TEXT: usize = 1;

pub const INTEGER: usize = 2;

pub const FLOAT: usize = 3;

pub const NUMBER: usize = 4;

pub const TEST: usize = 0;

pub const TRUE: usize = 4;

pub const FALSE: usize = 5;

pub const NONE: u32 = 0;

// May a token of this kind stand where this is wanted?
pub fn is_allowed(want: usize, k: usize) -> bool
    ensures { result ≡ allows want k }
{
    if k == kind::OPEN {
        return true;
    }
    if want == TEXT {
        return is_string(k);
    }
    if want == INTEGER {
        return is_number(k);
    }
    if want == FLOAT {
        return is_float(k);
    }
    is_begun(want, k)
}

// The same where a number or anything is wanted.
fn is_begun(want: usize, k: usize) -> bool
    ensures { result ≡ begins want k }
{
    if is_number(k) {
        return true;
    }
    if is_float(k) {
        return true;
    }
    if want == NUMBER {
        return false;
    }
    if k == kind::NOT {
        return true;
    }
    is_string(k)
}

// Does a string begin with it?
pub fn is_string(k: usize) -> bool
    ensures { result ≡ begins_string k }
{
    if k == kind::LITERAL {
        return true;
    }
    if k == kind::NAME {
        return true;
    }
    k == kind::DOLLAR
}

// Does an integer begin with it?
pub fn is_number(k: usize) -> bool
    ensures { result ≡ begins_number k }
{
    if k == kind::DIGITS {
        return true;
    }
    if k == kind::MINUS {
        return true;
    }
    k == kind::AT
}

// Does a float begin with it?
pub fn is_float(k: usize) -> bool
    ensures { result ≡ begins_float k }
{
    if k == kind::FLOAT {
        return true;
    }
    if k == kind::MINUS {
        return true;
    }
    k == kind::AMPERSAND
}

// The comparison of strings, or NONE.
pub fn comparison_of(k: usize) -> u32
    ensures value { result ≡ comparison k }
    ensures upper_bound { result < 25 }
{
    if k == kind::EQUAL {
        return syntax::TEXT_EQUAL;
    }
    if k == kind::UNEQUAL {
        return syntax::TEXT_UNEQUAL;
    }
    if k == kind::LESS {
        return syntax::TEXT_LESS;
    }
    if k == kind::GREATER {
        return syntax::TEXT_GREATER;
    }
    if k == kind::AT_MOST {
        return syntax::TEXT_AT_MOST;
    }
    if k == kind::AT_LEAST {
        return syntax::TEXT_AT_LEAST;
    }
    NONE
}

// The operator behind an integer, or NONE.
pub fn number_operator(k: usize) -> u32
    ensures { result ≡ number_operator k }
{
    if k == kind::POWER {
        return syntax::POWER;
    }
    if k == kind::TIMES {
        return syntax::TIMES;
    }
    if k == kind::DIVIDE {
        return syntax::OVER;
    }
    if k == kind::REMAINDER {
        return syntax::REMAINDER;
    }
    if k == kind::PLUS {
        return syntax::PLUS;
    }
    if k == kind::MINUS {
        return syntax::MINUS;
    }
    let c = comparison_of(k);
    if c == NONE {
        return NONE;
    }
    c + 7
}

// The operator behind a float, or NONE.
pub fn float_operator(k: usize) -> u32
    ensures { result ≡ float_operator k }
{
    if k == kind::POWER {
        return syntax::FLOAT_POWER;
    }
    if k == kind::TIMES {
        return syntax::FLOAT_TIMES;
    }
    if k == kind::DIVIDE {
        return syntax::FLOAT_OVER;
    }
    if k == kind::PLUS {
        return syntax::FLOAT_PLUS;
    }
    if k == kind::MINUS {
        return syntax::FLOAT_MINUS;
    }
    if k == kind::LESS {
        return syntax::FLOAT_LESS;
    }
    if k == kind::GREATER {
        return syntax::FLOAT_GREATER;
    }
    if k == kind::AT_MOST {
        return syntax::FLOAT_AT_MOST;
    }
    if k == kind::AT_LEAST {
        return syntax::FLOAT_AT_LEAST;
    }
    NONE
}

// The operator behind a string, or NONE.
pub fn text_operator(k: usize) -> u32
    ensures { result ≡ text_operator k }
{
    if k == kind::DOT {
        return syntax::JOIN;
    }
    if k == kind::MATCHES {
        return syntax::MATCHES;
    }
    comparison_of(k)
}

// The operator behind a test, or NONE.
pub fn test_operator(k: usize) -> u32
    ensures { result ≡ test_operator k }
{
    if k == kind::AND {
        return syntax::BOTH;
    }
    if k == kind::OR {
        return syntax::EITHER;
    }
    NONE
}

// The operator behind what was read, or NONE.
pub fn operator_of(sort: usize, k: usize) -> u32
    ensures { result ≡ operator sort k }
{
    if sort == INTEGER {
        return number_operator(k);
    }
    if sort == TEXT {
        return text_operator(k);
    }
    if sort == FLOAT {
        return float_operator(k);
    }
    let o = test_operator(k);
    if o != NONE {
        return o;
    }
    if sort == TEST {
        return NONE;
    }
    text_operator(k)
}

// The operator before an operand, or NONE.
pub fn prefix_operator(k: usize) -> u32
    ensures { result ≡ prefix_operator k }
{
    if k == kind::MINUS {
        return syntax::NEGATE;
    }
    if k == kind::AT {
        return syntax::CONVERT;
    }
    if k == kind::DOLLAR {
        return syntax::LOOKUP;
    }
    if k == kind::NOT {
        return syntax::OPPOSITE;
    }
    if k == kind::AMPERSAND {
        return syntax::TO_FLOAT;
    }
    NONE
}

// Unary "-" is that of what stands behind it.
pub fn prefix_of(op: u32, sort: usize) -> u32
    ensures { result ≡ prefix_of op sort }
{
    if op == syntax::NEGATE {
        if sort == FLOAT {
            return syntax::FLOAT_NEGATE;
        }
    }
    op
}

// How tightly an operator between two operands binds.
pub fn level_of(op: u32) -> u8
    ensures value { result ≡ level_of op }
    ensures upper_bound { result < 6 }
{
    if syntax::MINUS < op {
        return level_above(op);
    }
    if syntax::REMAINDER < op {
        return 3;
    }
    if op == syntax::POWER {
        return 5;
    }
    if op == syntax::JOIN {
        return 3;
    }
    4
}

// The same of a comparison, of an operator of floats or of tests.
fn level_above(op: u32) -> u8
    ensures value { result ≡ level_above op }
    ensures upper_bound { result < 6 }
{
    if op < syntax::FLOAT_POWER {
        return 2;
    }
    if syntax::FLOAT_MINUS < op {
        if op < syntax::BOTH {
            return 2;
        }
        if op == syntax::BOTH {
            return 1;
        }
        return 0;
    }
    if syntax::FLOAT_OVER < op {
        return 3;
    }
    if op == syntax::FLOAT_POWER {
        return 5;
    }
    4
}

// What an operator takes.
pub fn operand_of(op: u32) -> usize
    ensures { result ≡ operand_of op }
{
    if syntax::JOIN < op {
        if syntax::MINUS < op {
            return operand_above(op);
        }
        return INTEGER;
    }
    if op == syntax::NEGATE {
        return INTEGER;
    }
    if op == syntax::OPPOSITE {
        return TEST;
    }
    if op == syntax::FLOAT_NEGATE {
        return FLOAT;
    }
    TEXT
}

// The same of a comparison, of an operator of floats or of tests.
fn operand_above(op: u32) -> usize
    ensures { result ≡ operand_above op }
{
    if syntax::MATCHES < op {
        if syntax::AT_LEAST < op {
            if op < syntax::BOTH {
                return FLOAT;
            }
            return TEST;
        }
        return INTEGER;
    }
    TEXT
}

// What an operator gives.
pub fn result_of(op: u32) -> usize
    ensures { result ≡ result_of op }
{
    if syntax::JOIN < op {
        if syntax::MINUS < op {
            return result_above(op);
        }
        return INTEGER;
    }
    if op == syntax::OPPOSITE {
        return TEST;
    }
    if op == syntax::LOOKUP {
        return TEXT;
    }
    if op == syntax::JOIN {
        return TEXT;
    }
    if syntax::OPPOSITE < op {
        return FLOAT;
    }
    INTEGER
}

// The same of a comparison, of an operator of floats or of tests.
fn result_above(op: u32) -> usize
    ensures { result ≡ result_above op }
{
    if syntax::AT_LEAST < op {
        if syntax::FLOAT_MINUS < op {
            return TEST;
        }
        return FLOAT;
    }
    TEST
}

// How far the operand of a prefix operator reaches.
pub fn operand_level(op: u32) -> u8
    ensures { result ≡ operand_level op }
{
    if op == syntax::OPPOSITE {
        return 2;
    }
    6
}

// What is wanted behind a prefix operator.
pub fn operand_want(op: u32, want: usize) -> usize
    ensures { result ≡ operand_want op want }
{
    if op == syntax::OPPOSITE {
        return ANY;
    }
    if op == syntax::NEGATE {
        if want == ANY {
            return NUMBER;
        }
        return want;
    }
    if op == syntax::FLOAT_NEGATE {
        return FLOAT;
    }
    TEXT
}

// What is wanted to the right of an operator.
pub fn right_want(op: u32) -> usize
    ensures { result ≡ right_want op }
{
    operand_of(op)
}

// How far the right operand of an operator reaches.
pub fn right_level(op: u32) -> u8
    ensures { result ≡ right_level op }
{
    level_of(op) + 1
}

// Is there no operator of this level or one above?
pub fn is_loose(level: u8, op: u32) -> bool
    ensures { result ≡ pick (binds level op) false true }
{
    if op == NONE {
        return true;
    }
    level_of(op) < level
}

// How far what stands in brackets reaches.
pub fn inside_level(want: usize) -> u8
    ensures { result ≡ inside_level want }
{
    if want == ANY {
        return 0;
    }
    3
}

// Is what was read of this sort, or a bare word that can become it?
pub fn is_fit(wanted: usize, sort: usize) -> bool
    ensures { result ≡ fits wanted sort }
{
    if sort == wanted {
        return true;
    }
    if sort < TRUE {
        return false;
    }
    wanted < INTEGER
}

// Does a program in so many brackets end before a token of this kind?
pub fn is_stop(nest: usize, k: usize) -> bool
    ensures { result ≡ stops nest k }
{
    if nest != 0 {
        return k == kind::CLOSE_BRACE;
    }
    if k == kind::END {
        return true;
    }
    if k < kind::KEYNOTE_VERSION {
        return false;
    }
    k <= kind::SIGNATURE
}
