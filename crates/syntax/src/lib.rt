#![tactic(auto)]

pub mod fault;

// The operations of a compiled Conditions field, by number. An entry of compiled code is an operation times 65,536 and a place of the text.
pub const LITERAL: u32 = 0;

pub const NAME: u32 = 1;

pub const NUMBER: u32 = 2;

pub const TRUE: u32 = 3;

pub const FALSE: u32 = 4;

pub const DECIMAL: u32 = 5;

pub const LOOKUP: u32 = 6;

pub const CONVERT: u32 = 7;

pub const NEGATE: u32 = 8;

pub const OPPOSITE: u32 = 9;

pub const TO_FLOAT: u32 = 10;

pub const FLOAT_NEGATE: u32 = 11;

pub const JOIN: u32 = 12;

pub const POWER: u32 = 13;

pub const TIMES: u32 = 14;

pub const OVER: u32 = 15;

pub const REMAINDER: u32 = 16;

pub const PLUS: u32 = 17;

pub const MINUS: u32 = 18;

pub const TEXT_EQUAL: u32 = 19;

pub const TEXT_UNEQUAL: u32 = 20;

pub const TEXT_LESS: u32 = 21;

pub const TEXT_GREATER: u32 = 22;

pub const TEXT_AT_MOST: u32 = 23;

pub const TEXT_AT_LEAST: u32 = 24;

pub const MATCHES: u32 = 25;

pub const EQUAL: u32 = 26;

pub const UNEQUAL: u32 = 27;

pub const LESS: u32 = 28;

pub const GREATER: u32 = 29;

pub const AT_MOST: u32 = 30;

pub const AT_LEAST: u32 = 31;

pub const FLOAT_POWER: u32 = 32;

pub const FLOAT_TIMES: u32 = 33;

pub const FLOAT_OVER: u32 = 34;

pub const FLOAT_PLUS: u32 = 35;

pub const FLOAT_MINUS: u32 = 36;

pub const FLOAT_LESS: u32 = 37;

pub const FLOAT_GREATER: u32 = 38;

pub const FLOAT_AT_MOST: u32 = 39;

pub const FLOAT_AT_LEAST: u32 = 40;

pub const BOTH: u32 = 41;

pub const EITHER: u32 = 42;

pub const BEGIN: u32 = 43;

pub const PLAIN: u32 = 44;

pub const VALUED: u32 = 45;

pub const NESTED: u32 = 46;

// The higher of two ranks; no entry stores it.
pub const RAISE: u32 = 47;
