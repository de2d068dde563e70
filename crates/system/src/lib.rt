// The system of a query: its requesters and its assertions read one after the other into the tables.
#![tactic(auto)]

pub mod asked;
pub mod each;
pub mod note;
pub mod solved;
