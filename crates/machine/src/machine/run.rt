// Steps and runs, as they are called from outside.
ghost use Rattle.std.specs.Prelude.{◌≡◌};
ghost use Rattle.machine.specs.Machine.{Did, Retained};
ghost use Rattle.machine.specs.Calls.{going as going_on, step as step_of, run as run_of};
ghost use Rattle.machine.specs.Step.{Fetches};

use crate::fault::MachineFault;
use crate::machine::Machine;
use decode_cache::cache::DecodeCache;
use memory::memory::Memory;
use refusal::Refused;
use tlb::table::Tlb;

pub const MOST_STEPS: u32 = 1_000_000;

// What a run answers: both always, as the call is known outside.
#[derive(Clone, Copy, PartialEq, Eq, Debug, Drop)]
pub struct Ran {
    pub steps: u32,
    pub halted: bool,
}

impl<'m, M: Memory, T: Tlb, C: DecodeCache> Machine<'m, M, T, C> {
    // A halted machine makes no step.
    fn going(&self) -> Result<(), MachineFault>
        ensures { result ≡ going_on self.now.registers }
    {
        if self.registers.halted() {
            return Err(MachineFault::Halted);
        }
        Ok(())
    }

    // One step; answers the number of the trap that it took, or 0, as the call is known outside.
    pub fn step(&mut self) -> Result<u32, Refused>
        ensures did { Did M.Memory T.Tlb C.DecodeCache step_of self.old result self.new }
        ensures retained { Retained M.Memory T.Tlb C.DecodeCache Fetches self.old self.new.cache.now }
    {
        self.going()?;
        let taken = self.turn();
        self.registers.set_steps(1);
        Ok(taken.map_or(0, |trap| trap.number()))
    }

    // Steps until the machine halts, `n` at most.
    pub fn run(&mut self, n: u32) -> Result<Ran, Refused>
        ensures { Did M.Memory T.Tlb C.DecodeCache (run_of n) self.old result self.new }
    {
        self.going()?;
        if n > MOST_STEPS {
            return Err(MachineFault::TooManySteps.into());
        }
        // Counted by hand: a halt ends the loop, and how many steps it made is the answer.
        let mut left = n;
        while left > 0 && !self.registers.halted() {
            let _ = self.turn();
            left -= 1;
        }
        let steps = n - left;
        self.registers.set_steps(steps);
        Ok(Ran {
            steps,
            halted: self.registers.halted(),
        })
    }
}
