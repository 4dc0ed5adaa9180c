// Everything that a machine holds besides its parts.
ghost use Rattle.std.specs.Prelude.{◌≡◌, ◌%◌, slice_index};

use super::status::Status;

#[derive(Clone, Copy, PartialEq, Eq, Debug, Drop)]
pub struct Registers {
    // GR0 to GR15, SR0 to SR7 and CR0 to CR31
    pub(crate) gr: [u32; 16],
    pub(crate) sr: [u16; 8],
    pub(crate) cr: [u32; 32],
    // the address of the current instruction
    pub(crate) segment: u16,
    pub(crate) offset: u32,
    pub(crate) status: Status,
    // line n is bit n, counted from the left
    pub(crate) pending: u32,
    pub(crate) halted: bool,
    // how many steps the latest accepted step or run made
    pub(crate) steps: u32,
    // GR0 is zero, CR2 has five bits, and instructions stand at multiples of four
    ghost zero: { slice_index gr 0 ≡ 0 },
    ghost narrow: { slice_index cr 2 % 32 ≡ slice_index cr 2 },
    ghost aligned: { offset % 4 ≡ 0 },
}
