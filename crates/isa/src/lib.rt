// The instruction set: what an instruction word says, and the arithmetic of 32-bit numbers.
#![tactic(auto)]

pub mod arithmetic;
pub mod decode;
pub mod fields;
pub mod instruction;
