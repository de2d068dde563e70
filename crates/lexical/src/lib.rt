// The lexical layer: the class of each byte, lines, tokens, literals, numbers and keywords.
// A reader steps `token_at(s, mode, t.end)` from `BEFORE` and 0 on, with `mode_after` for the next mode.
#![tactic(auto)]

pub mod class;
mod fast;
pub mod kind;
pub mod label;
pub mod line;
pub mod literal;
pub mod number;
pub mod operator;
pub mod scan;
pub mod token;
pub mod unit;
pub mod word;

pub use kind::{mode_after, mode_of, reason_of};
pub use line::token_at;
pub use literal::{decode_into, is_short, literal_length};
pub use number::number_at;
pub use token::Token;
pub use word::{is_false, is_true};
