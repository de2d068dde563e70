// The reader of a Conditions field: what may stand where, and the code that says what was read.
#![tactic(auto)]

pub mod emit;
pub mod expression;
pub mod leaf;
pub mod program;
pub mod table;
