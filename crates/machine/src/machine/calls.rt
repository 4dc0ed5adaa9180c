// The calls on what a machine holds: bytes, registers and translations.
ghost use Rattle.std.specs.Prelude.{◌≡◌, length};
ghost use Rattle.machine.specs.Machine.{view, Did, Went};
ghost use Rattle.machine.specs.Calls.{place as place_of, look_answer, looked, give as give_of, map as map_of, put_byte};

use crate::fault::MachineFault;
use crate::machine::Machine;
use decode_cache::cache::DecodeCache;
use memory::memory::Memory;
use memory::range::{check_range, read_range};
use refusal::Refused;
use tlb::info::Info;
use tlb::page::Page;
use tlb::table::Tlb;
use tlb::translation::Translation;

const LAST_PAGE: u32 = 262_143;

impl<'m, M: Memory, T: Tlb, C: DecodeCache> Machine<'m, M, T, C> {
    // Puts bytes into memory from an address on: all of them, or none.
    pub fn place(&mut self, address: u32, bytes: &[u8]) -> Result<(), Refused>
        ensures { Did M.Memory T.Tlb C.DecodeCache (place_of address bytes.now) self.old result self.new }
    {
        // Numbers are widened by `as` here: the proofs know them so, and not as an answer of `from`.
        let start = address as u64;
        check_range(self.memory, start, bytes.len() as u64)?;
        for (i, byte) in bytes.iter().enumerate() {
            self.put_byte(start + i as u64, *byte);
        }
        Ok(())
    }

    // The cache forgets the word that the byte belongs to.
    fn put_byte(&mut self, address: u64, byte: u8)
        ensures { Went M.Memory T.Tlb C.DecodeCache (put_byte address byte) self.old self.new }
    {
        // It cannot be refused: the range was tested.
        let _ = self.memory.write(address, 1, byte as u32);
        self.cache.forget(address / 4 * 4);
    }

    // Fills the buffer with bytes of memory from an address on; a refusal leaves it.
    pub fn look(&self, address: u32, buffer: &mut [u8]) -> Result<(), Refused>
        ensures answer { result ≡ look_answer address (length buffer.old) (view M.Memory T.Tlb C.DecodeCache self.now) }
        ensures buffer { buffer.new ≡ looked address buffer.old (view M.Memory T.Tlb C.DecodeCache self.now) }
    {
        read_range(self.memory, address as u64, buffer)?;
        Ok(())
    }

    // Sets a register; class and number are plain, so that wrong ones are refused.
    pub fn give(&mut self, class: u32, number: u32, value: u32) -> Result<(), Refused>
        ensures { Did M.Memory T.Tlb C.DecodeCache (give_of class number value) self.old result self.new }
    {
        self.registers.give(class, number, value)?;
        Ok(())
    }

    // Enters a translation, in place of the one that the page has; its page is in plain numbers, so that wrong ones are refused.
    pub fn map(&mut self, segment: u16, page: u32, info: u32) -> Result<(), Refused>
        ensures { Did M.Memory T.Tlb C.DecodeCache (map_of segment page info) self.old result self.new }
    {
        if segment == 0 || page > LAST_PAGE {
            return Err(MachineFault::BadTranslation.into());
        }
        let info = Info::parse(info).ok_or(MachineFault::BadTranslation)?;
        let page = Page {
            segment,
            number: page,
        };
        self.tlb.insert(Translation { page, info })?;
        Ok(())
    }
}
