// The machine: it borrows its parts, so that whoever lent them knows what they hold afterwards.
pub mod calls;
mod fetch;
pub mod run;
mod step;

ghost use Rattle.std.specs.Prelude.{◌≡◌};
ghost use Rattle.machine.specs.Machine.{view, Made};

use decode_cache::cache::DecodeCache;
use memory::memory::Memory;
use registers::registers::Registers;
use tlb::table::Tlb;

// That a machine is sound is a premise of promises and no invariant: beside `&mut` fields one is covered in part only. Its parts
// are three parameters, since a struct of them would be one more `&mut` with a name of its own.
#[derive(Drop)]
pub struct Machine<'m, M: Memory, T: Tlb, C: DecodeCache> {
    registers: Registers,
    memory: &'m mut M,
    tlb: &'m mut T,
    cache: &'m mut C,
}

impl<'m, M: Memory, T: Tlb, C: DecodeCache> Machine<'m, M, T, C> {
    // A fresh machine; whatever table and cache held is gone.
    pub fn new(memory: &'m mut M, tlb: &'m mut T, cache: &'m mut C) -> Machine<'m, M, T, C>
        ensures { Made M.Memory T.Tlb C.DecodeCache memory.entry tlb.entry cache.entry result }
    {
        tlb.clear();
        cache.clear();
        Machine {
            registers: Registers::fresh(),
            memory,
            tlb,
            cache,
        }
    }

    pub fn registers(&self) -> &Registers
        ensures { result.now ≡ (view M.Memory T.Tlb C.DecodeCache self.now).registers }
    {
        &self.registers
    }
}
