// Interrupt lines.
ghost use Rattle.std.specs.Prelude.{◌≡◌};
ghost use Rattle.registers.specs.Interrupts.{open_line, by_line};

use super::registers::Registers;

impl Registers {
    // The lowest line that is pending and open, where interrupts are on; it is then no longer pending, so it is
    // made in an `if` and in no closure.
    pub fn take_line(&mut self) -> Option<u32>
        ensures value { result ≡ open_line self.old }
        ensures after { self.new ≡ by_line self.old (open_line self.old) }
    {
        let open = self.pending & self.cr[22];
        if self.status.interrupts && open > 0 {
            let line = open.leading_zeros();
            self.pending -= 0x8000_0000 >> line;
            Some(line)
        } else {
            None
        }
    }
}
