// The fields KeyNote-Version, Local-Constants and Signature of an assertion. Each reader is given the token behind
// the field's label and reads from left to right up to the first fault, or hands back the token that ends the field.
#![tactic(auto)]

pub mod constants;
pub mod out;
pub mod signature;
pub mod version;
