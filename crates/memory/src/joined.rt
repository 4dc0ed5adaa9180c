// Two memories as one, the lower first.
ghost use Rattle.std.specs.Prelude.{◌≡◌, ◌++◌, length};
ghost use Rattle.memory.specs.Joining.{joins, joinable, seam_of, joined_bytes, joined_marks, joined_paged};

use super::memory::{Memory, MemoryFault};
use super::size::within;
use super::{MOST_PAGES, PAGE_BYTES};
use refusal::Refusal;

// Neither part is empty, and both together have at most 256 pages.
fn join(lower: u64, upper: u64) -> bool
    ensures { result ≡ joins lower upper }
{
    lower != 0 && upper != 0 && within(MOST_PAGES, lower, upper)
}

// The answer alone is like that of the other checks.
pub fn check<L: Memory, U: Memory>(lower: &L, upper: &U) -> Result<(), Refusal>
    ensures { result ≡ joinable (length (L.Memory.marks lower.now)) (length (U.Memory.marks upper.now)) }
{
    join(lower.pages(), upper.pages())
        .then_some(())
        .ok_or(Refusal::BadSize)
}

#[derive(Drop)]
pub struct Joined<L: Memory, U: Memory> {
    lower: L,
    upper: U,
}

impl<L: Memory, U: Memory> Joined<L, U> {
    pub fn new(lower: L, upper: U) -> Joined<L, U>
        ensures lower { result.lower ≡ lower }
        ensures upper { result.upper ≡ upper }
    {
        Joined { lower, upper }
    }

    // The page at which the upper part begins, or none where the two make no memory.
    fn seam(&self) -> Option<u64>
        ensures { result ≡ seam_of (length (L.Memory.marks self.now.lower)) (length (U.Memory.marks self.now.upper)) }
    {
        let lower = self.lower.pages();
        join(lower, self.upper.pages()).then_some(lower)
    }
}

impl<L: Memory, U: Memory> Memory for Joined<L, U> {
    ghost bytes = { λ m. joined_bytes (L.Memory.bytes m.lower) (L.Memory.marks m.lower) (U.Memory.bytes m.upper) (U.Memory.marks m.upper) };

    ghost marks = { λ m. joined_marks (L.Memory.marks m.lower) (U.Memory.marks m.upper) };

    ghost roots = { λ m. L.Memory.roots m.lower ++ U.Memory.roots m.upper };

    ghost paged = { λ m. joined_paged _ _ _ _ (L.Memory.paged m.lower) (U.Memory.paged m.upper) };

    fn pages(&self) -> u64 {
        self.seam().map_or(0, |seam| seam + self.upper.pages())
    }

    fn marked(&self, page: u64) -> bool {
        self.seam().is_some_and(|seam| {
            if page < seam {
                self.lower.marked(page)
            } else {
                self.upper.marked(page - seam)
            }
        })
    }

    // Like `write` but for the call: a type for the part that an address falls in would be longer.
    fn read(&self, address: u64, width: u32) -> Result<u32, MemoryFault> {
        let seam = self.seam().ok_or(MemoryFault::Outside)?;
        let split = seam * PAGE_BYTES;
        if address < split {
            self.lower.read(address, width)
        } else {
            self.upper.read(address - split, width)
        }
    }

    fn write(&mut self, address: u64, width: u32, value: u32) -> Result<(), MemoryFault> {
        let seam = self.seam().ok_or(MemoryFault::Outside)?;
        let split = seam * PAGE_BYTES;
        if address < split {
            self.lower.write(address, width, value)
        } else {
            self.upper.write(address - split, width, value)
        }
    }
}
