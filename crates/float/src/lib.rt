// 32-bit floats: written ones, the operations, and their bits.
#![tactic(auto)]

pub mod bits;
pub mod decimal;
pub mod operation;
pub mod written;
