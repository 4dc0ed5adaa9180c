// Decoded instructions, kept under the physical address of their word so that memory need not be read and decoded again.
#![tactic(auto)]

pub mod cache;
pub mod empty;
pub mod lines;
