// The limits of queries and assertions, each named once.
#![tactic(auto)]

pub const MOST_RECORD: usize = 65535;

pub const LEAST_VALUES: usize = 2;

pub const MOST_VALUES: usize = 16;

pub const LEAST_VALUE: usize = 1;

pub const MOST_VALUE: usize = 64;

pub const LEAST_REQUESTERS: usize = 1;

pub const MOST_REQUESTERS: usize = 8;

pub const LEAST_REQUESTER: usize = 1;

pub const MOST_REQUESTER: usize = 256;

pub const LEAST_ATTRIBUTES: usize = 0;

pub const MOST_ATTRIBUTES: usize = 32;

pub const LEAST_NAME: usize = 1;

pub const MOST_NAME: usize = 2048;

pub const LEAST_SETTING: usize = 0;

pub const MOST_SETTING: usize = 2048;

pub const LEAST_ASSERTIONS: usize = 0;

pub const MOST_ASSERTIONS: usize = 200;

pub const LEAST_TEXT: usize = 1;

pub const MOST_TEXT: usize = 8192;

pub const MOST_STANDING: u8 = 2;

pub const MOST_LICENSEES: usize = 16;

pub const MOST_CONSTANTS: usize = 16;

pub const MOST_BRACKETS: usize = 16;

// Prefix operators in a row.
pub const MOST_PREFIXES: usize = 16;

pub const MOST_LITERAL: usize = 2048;

// A float literal: 18 digits and a point.
pub const MOST_FLOAT: usize = 19;

// A string that Conditions compute.
pub const MOST_STRING: usize = 4096;

pub const MOST_IDENTIFIER: usize = 256;

// What follows from them. Items of all four groups together.
pub const MOST_ITEMS: usize = MOST_VALUES + MOST_REQUESTERS + MOST_ATTRIBUTES + MOST_ASSERTIONS;

// The report: 3 bytes, and 3 for each assertion.
pub const MOST_REPORT: usize = 3 + 3 * MOST_ASSERTIONS;

// POLICY and the requesters.
pub const MOST_ASKING: usize = 1 + MOST_REQUESTERS;

// Those an assertion names: its authorizer and its licensees.
pub const MOST_NAMED: usize = 1 + MOST_LICENSEES;

pub const MOST_PRINCIPALS: usize = MOST_ASKING + MOST_ASSERTIONS * MOST_NAMED;

// An identifier behind its two-byte length, and all of them.
pub const MOST_COUNTED: usize = 2 + MOST_IDENTIFIER;

pub const MOST_POOL: usize = MOST_PRINCIPALS * MOST_COUNTED;

// Those of an assertion.
pub const MOST_ENTERED: usize = MOST_NAMED * MOST_COUNTED;

// The instructions of a field Licensees, and of all of them.
pub const MOST_CODE: usize = 3 * MOST_LICENSEES;

pub const MOST_PROGRAMS: usize = MOST_ASSERTIONS * MOST_CODE;

// The joined compliance values and the joined requesters, a comma for each and two bytes for a length.
pub const MOST_JOINED: usize = 2
    + MOST_VALUES * (MOST_VALUE + 1)
    + 2
    + MOST_REQUESTERS * (MOST_REQUESTER + 1);

// The lengths of the constants' names and values, two bytes each.
pub const MOST_LENGTHS: usize = 4 * MOST_CONSTANTS;

// The joined texts, and the constants of a text.
pub const MOST_CONSTS: usize = MOST_JOINED + MOST_LENGTHS + MOST_TEXT;
