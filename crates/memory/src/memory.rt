// What a machine asks of a memory. No method asks anything of its caller.
ghost use Rattle.std.specs.Prelude.{◌≡◌, ℕ, ◌^◌, ◌<◌, Bool, false, List, length, IfOk, slice_index_or};
ghost use Rattle.memory.specs.Pages.{Paged};
ghost use Rattle.memory.specs.Access.{reading, writing, written};
ghost use Rattle.memory.specs.Raised.{raised};

use refusal::{Layer, Refusal, Refused};

// Why an access is refused.
#[derive(Clone, Copy, PartialEq, Eq, Debug, Drop)]
pub enum MemoryFault {
    Outside,
    ReadOnly,
}

// The layer is told here, where the fault arises.
impl From<MemoryFault> for Refused {
    ghost from_gives = { λ f r. r ≡ raised f };

    fn from(fault: MemoryFault) -> Refused {
        let refusal = match fault {
            MemoryFault::Outside => Refusal::OutsideMemory,
            MemoryFault::ReadOnly => Refusal::ReadOnlyPage,
        };
        Refused {
            refusal,
            layer: Layer::Memory,
        }
    }
}

pub trait Memory {
    ghost bytes: { Self → List ℕ };

    // One read-only mark for each page.
    ghost marks: { Self → List Bool };

    // The ghost names of the bytes lent to it, which no method changes: by them the lender learns what it has back.
    ghost roots: { Self → List ℕ };

    ghost paged: { (m : Self) → Paged (bytes m) (marks m) };

    fn pages(&self) -> u64
        ensures { result ≡ length (marks self.now) };

    fn marked(&self, page: u64) -> bool
        ensures { result ≡ slice_index_or (marks self.now) page false };

    // The width is a plain number, so that a wrong one is refused here.
    fn read(&self, address: u64, width: u32) -> Result<u32, MemoryFault>
        ensures value { result ≡ reading (bytes self.now) width address }
        ensures small { IfOk result (λ v. v < 256 ^ width) };

    fn write(&mut self, address: u64, width: u32, value: u32) -> Result<(), MemoryFault>
        ensures answer { result ≡ writing (bytes self.old) (marks self.old) width address }
        ensures after { bytes self.new ≡ written (bytes self.old) (marks self.old) width address value }
        ensures same { marks self.new ≡ marks self.old }
        ensures rooted { roots self.new ≡ roots self.old };
}
