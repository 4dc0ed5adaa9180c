// One step.
ghost use Rattle.std.specs.Prelude.{◌≡◌};
ghost use Rattle.machine.specs.Machine.{Did, Tried, Retained};
ghost use Rattle.machine.specs.Step.{performed, attempted, turned, Reaches, Fetches};

use super::fetch::failed;
use crate::machine::Machine;
use crate::way::Fetched;
use decode_cache::cache::DecodeCache;
use memory::memory::Memory;
use registers::finish::privileged;
use registers::trap::{Cause, Trap};
use tlb::table::Tlb;

impl<'m, M: Memory, T: Tlb, C: DecodeCache> Machine<'m, M, T, C> {
    // Does the work of an instruction at the level that its fetch gave, or tells why not and changes nothing.
    fn perform(&mut self, fetched: Fetched) -> Result<(), Cause>
        ensures tried { Tried M.Memory T.Tlb C.DecodeCache (performed fetched) self.old result self.new }
        ensures cache { self.new.cache.now ≡ self.old.cache.now }
    {
        let word = fetched.decoded.word;
        let instruction = fetched.decoded.instruction;
        if fetched.user && privileged(&instruction) {
            return Err(failed(Trap::Privileged, word));
        }
        let before = self.registers.user();
        self.registers.set_level(fetched.user);
        // A match: a trap puts the level back too.
        match self.registers.finish(instruction) {
            Ok(()) => Ok(()),
            Err(trap) => {
                self.registers.set_level(before);
                Err(failed(trap, word))
            }
        }
    }

    fn attempt(&mut self) -> Result<(), Cause>
        ensures tried { Tried M.Memory T.Tlb C.DecodeCache attempted self.old result self.new }
        ensures retained { Retained M.Memory T.Tlb C.DecodeCache Reaches self.old self.new.cache.now }
    {
        let fetched = self.fetch()?;
        self.perform(fetched)
    }

    // An interrupt, an instruction or a trap; answers the trap, if it took one.
    pub(crate) fn turn(&mut self) -> Option<Trap>
        ensures did { Did M.Memory T.Tlb C.DecodeCache turned self.old result self.new }
        ensures retained { Retained M.Memory T.Tlb C.DecodeCache Fetches self.old self.new.cache.now }
    {
        if let Some(line) = self.registers.take_line() {
            self.registers.trap(Cause {
                trap: Trap::Interrupt,
                segment: 0,
                offset: line,
                word: 0,
            });
            return Some(Trap::Interrupt);
        }
        // A match: a trap changes the registers too.
        match self.attempt() {
            Ok(()) => None,
            Err(cause) => {
                self.registers.trap(cause);
                Some(cause.trap)
            }
        }
    }
}
