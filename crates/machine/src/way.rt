// What reaching the current instruction gives.
use decode_cache::cache::Decoded;

// Where an instruction stands in memory, at which level it runs, and the segment that a trap shows: 0, as
// the trap writes it, where none is used.
#[derive(Clone, Copy, PartialEq, Eq, Debug, Drop)]
pub struct Way {
    pub user: bool,
    pub segment: u16,
    pub address: u64,
}

// The instruction that was fetched, with the level that it runs at.
#[derive(Clone, Copy, PartialEq, Eq, Debug, Drop)]
pub struct Fetched {
    pub user: bool,
    pub decoded: Decoded,
}
