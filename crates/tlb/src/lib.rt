// Translations of pages, and the table that holds them.
#![tactic(auto)]

pub mod info;
pub mod page;
pub mod page_type;
pub mod size;
pub mod slot_list;
pub mod table;
pub mod translation;

pub const MOST_SLOTS: u64 = 1_024;
