// The evaluation layer: integers, names and the machine that runs compiled Conditions.
#![tactic(auto)]

pub mod integer;
pub mod name;
pub mod operator;
pub mod value;
