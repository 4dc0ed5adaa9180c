// RAM over the caller's bytes: no page of it is marked.
ghost use Rattle.std.specs.Prelude.{◌≡◌, false, [], ◌∷◌};
ghost use Rattle.memory.specs.Pages.{whole, unmarked, whole_paged};

use super::bytes::store;
use super::lent;
use super::memory::{Memory, MemoryFault};

#[derive(Drop)]
pub struct Ram<'a> {
    bytes: &'a mut [u8],
}

impl<'a> Ram<'a> {
    pub fn new(bytes: &'a mut [u8]) -> Ram<'a>
        ensures value { result.bytes.now ≡ bytes.old }
        ensures named { result.bytes.ghost_name ≡ bytes.entry.ghost_name }
    {
        Ram { bytes }
    }
}

impl<'a> Memory for Ram<'a> {
    ghost bytes = { λ m. whole m.bytes.now };

    ghost marks = { λ m. unmarked (whole m.bytes.now) };

    ghost roots = { λ m. m.bytes.ghost_name ∷ [] };

    ghost paged = { λ m. whole_paged false m.bytes.now };

    fn pages(&self) -> u64 {
        lent::pages(self.bytes)
    }

    fn marked(&self, _page: u64) -> bool {
        false
    }

    fn read(&self, address: u64, width: u32) -> Result<u32, MemoryFault> {
        lent::read(self.bytes, address, width)
    }

    // What can be read can be written.
    fn write(&mut self, address: u64, width: u32, value: u32) -> Result<(), MemoryFault> {
        self.read(address, width)?;
        store(self.bytes, address as usize, width, value);
        Ok(())
    }
}
