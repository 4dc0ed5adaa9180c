// ROM over bytes held for reading: every page of it is marked.
ghost use Rattle.std.specs.Prelude.{◌≡◌, true, []};
ghost use Rattle.memory.specs.Pages.{whole, all_marked, whole_paged};

use super::lent;
use super::memory::{Memory, MemoryFault};

#[derive(Drop)]
pub struct Rom<'a> {
    bytes: &'a [u8],
}

impl<'a> Rom<'a> {
    pub fn new(bytes: &'a [u8]) -> Rom<'a>
        ensures { result.bytes.now ≡ bytes.now }
    {
        Rom { bytes }
    }
}

impl<'a> Memory for Rom<'a> {
    ghost bytes = { λ m. whole m.bytes.now };

    ghost marks = { λ m. all_marked (whole m.bytes.now) };

    // Nobody lent it bytes to change.
    ghost roots = { λ _. [] };

    ghost paged = { λ m. whole_paged true m.bytes.now };

    fn pages(&self) -> u64 {
        lent::pages(self.bytes)
    }

    fn marked(&self, page: u64) -> bool {
        page < lent::pages(self.bytes)
    }

    fn read(&self, address: u64, width: u32) -> Result<u32, MemoryFault> {
        lent::read(self.bytes, address, width)
    }

    // What can be read may not be written, and nothing else is there.
    fn write(&mut self, address: u64, width: u32, _value: u32) -> Result<(), MemoryFault> {
        self.read(address, width)?;
        Err(MemoryFault::ReadOnly)
    }
}
