// What an info word says, field by field.
ghost use Rattle.std.specs.Prelude.{◌≡◌, ◌/◌, ◌%◌, ◌^◌, ◌<◌, ◌==◌};
ghost use Rattle.tlb.specs.Info.{info_of, checked, kind, pl1, pl2, physical};

use super::super::page_type::PageType;
use super::Info;

impl Info {
    // None where an unnamed bit is set: no more can be wrong, so no TryFrom with an error that says as much. It is made only where
    // the test held, so not in a closure.
    pub fn parse(word: u32) -> Option<Info>
        ensures { result ≡ info_of word }
    {
        if word >> 30 == 0 && (word >> 18) % 128 == 0 {
            Some(Info { word })
        } else {
            None
        }
    }

    // By name, so that a reader sees which number it is.
    pub fn word(self) -> u32
        ensures { result ≡ self.word }
    {
        self.word
    }

    pub fn checked(self) -> bool
        ensures { result ≡ checked self }
    {
        self.bit(29)
    }

    // Two bits name a type; a From would claim that every number names one.
    pub fn kind(self) -> PageType
        ensures { result ≡ kind self }
    {
        match (self.word >> 27) % 4 {
            0 => PageType::ReadOnly,
            1 => PageType::ReadWrite,
            2 => PageType::Execute,
            _ => PageType::Gateway,
        }
    }

    pub fn pl1(self) -> bool
        ensures { result ≡ pl1 self }
    {
        self.bit(26)
    }

    pub fn pl2(self) -> bool
        ensures { result ≡ pl2 self }
    {
        self.bit(25)
    }

    // Whether the bit is set that is worth 2 to the power of `place`; `isa` counts from the left.
    fn bit(self, place: u32) -> bool
        requires { place < 32 }
        ensures { result ≡ (self.word / 2 ^ place % 2 == 1) }
    {
        (self.word >> place) % 2 == 1
    }

    // The number of the physical page.
    pub fn physical(self) -> u32
        ensures { result ≡ physical self }
    {
        self.word % 0x4_0000
    }
}
