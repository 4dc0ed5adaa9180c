// Traps: why a step was broken off, and what that leaves in the registers.
ghost use Rattle.std.specs.Prelude.{◌≡◌};
ghost use Rattle.registers.specs.Trap.{trap_number, trapped};

use super::registers::Registers;
use super::status::Status;

#[derive(Clone, Copy, PartialEq, Eq, Debug, Drop)]
pub enum Trap {
    Memory = 1,
    Interrupt = 2,
    CodeMiss = 3,
    CodeRights = 4,
    CodeProtection = 5,
    Illegal = 6,
    Privileged = 7,
    Overflow = 8,
    Break = 15,
}

// A trap with what it tells the handler: the instruction word, and the segment and offset that failed; 0, as the trap writes it,
// for what it does not tell.
#[derive(Clone, Copy, PartialEq, Eq, Debug, Drop)]
pub struct Cause {
    pub trap: Trap,
    pub segment: u16,
    pub offset: u32,
    pub word: u32,
}

impl Trap {
    // By name, so that a reader sees which number it is.
    pub fn number(self) -> u32
        ensures { result ≡ trap_number self }
    {
        self as u32
    }
}

impl Registers {
    // Saves the registers as they stand and goes to the trap's handler.
    pub fn trap(&mut self, cause: Cause)
        ensures { self.new ≡ trapped self.old cause }
    {
        let handler = self.cr[16].wrapping_add(cause.trap.number() * 32);
        self.cr[17] = u32::from(self.status) * 0x1_0000 + u32::from(self.segment);
        self.cr[18] = self.offset;
        self.cr[19] = cause.word;
        self.cr[20] = u32::from(cause.segment);
        self.cr[21] = cause.offset;
        self.segment = 0;
        self.offset = handler / 4 * 4;
        self.status = Status::CLEAR;
    }
}
