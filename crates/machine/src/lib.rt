// The machine over any memory, translation table and decode cache.
#![tactic(auto)]

pub mod fault;
pub mod machine;
pub mod way;
