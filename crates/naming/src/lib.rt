// Whom an assertion names: Authorizer and Licensees, whose string expressions are read, run and entered into the index of principals.
#![tactic(auto)]

pub mod authorizer;
pub mod code;
pub mod fault;
pub mod identifier;
pub mod licensees;
pub mod list;
pub mod whole;
