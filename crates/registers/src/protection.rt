// Protection ids: the segments that a checked page may be reached in.
ghost use Rattle.std.specs.Prelude.{◌≡◌};
ghost use Rattle.registers.specs.Protection.{holds as holds_it, listed};

use super::registers::Registers;

// Whether one half of a control register is the segment.
fn holds(pair: u32, segment: u16) -> bool
    ensures { result ≡ holds_it pair segment }
{
    let segment = u32::from(segment);
    pair / 0x1_0000 == segment || pair % 0x1_0000 == segment
}

impl Registers {
    // Whether the segment is one of the eight ids in CR4 to CR7.
    pub fn lists(&self, segment: u16) -> bool
        ensures { result ≡ listed self.now segment }
    {
        self.cr[4..8].iter().any(|pair| holds(*pair, segment))
    }
}
