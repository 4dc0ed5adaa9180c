// The register file, and what instructions, traps and interrupts do to it.
#![tactic(auto)]

pub mod access;
pub mod finish;
pub mod give;
pub mod interrupts;
pub mod protection;
pub mod registers;
pub mod status;
pub mod trap;
