// Memory as the machine sees it: whole pages of bytes, each with a read-only mark.
#![tactic(auto)]

mod bytes;
pub mod joined;
mod lent;
pub mod memory;
pub mod ram;
pub mod range;
pub mod rom;
pub mod size;

pub const PAGE_BYTES: u64 = 16_384;

pub const MOST_PAGES: u64 = 256;
