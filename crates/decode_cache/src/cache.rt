// What a decode cache is: no method asks anything of its caller.
ghost use Rattle.std.specs.Prelude.{◌≡◌, Bool, true, Some, Option};
ghost use Rattle.decode_cache.specs.Held.{Held, Fewer, SameBut, with_one, without_one, nothing};

use isa::instruction::Instruction;

// An instruction with the word that it was decoded from.
#[derive(Clone, Copy, PartialEq, Eq, Debug, Drop)]
pub struct Decoded {
    pub word: u32,
    pub instruction: Instruction,
}

pub trait DecodeCache {
    // Whether its parts agree with one another: `clear` makes it so from any value, and every call keeps it. It is a premise of
    // promises and no invariant, so that a cache can be made over anything.
    ghost sound: { Self → Type 0 };

    // What it holds for the word at a physical address.
    ghost held: { Self → Held };

    // Whether it promises to hold what it is given until that word is forgotten or another takes its place; any cache may say no.
    ghost retains: { Bool };

    fn recall(&self, address: u64) -> Option<Decoded>
        ensures { sound self.now → result ≡ held self.now address };

    // It may lose what it held, and even what it is given unless it retains; it never holds anything else.
    fn keep(&mut self, address: u64, decoded: Decoded)
        ensures held { sound self.old → Fewer (held self.new) (with_one (held self.old) address decoded) }
        ensures retained { retains ≡ true → sound self.old → held self.new address ≡ Some decoded }
        ensures sound { sound self.old → sound self.new };

    // It may lose more than the word at the address unless it retains.
    fn forget(&mut self, address: u64)
        ensures held { sound self.old → Fewer (held self.new) (without_one (held self.old) address) }
        ensures retained { retains ≡ true → sound self.old → SameBut address (held self.new) (held self.old) }
        ensures sound { sound self.old → sound self.new };

    fn clear(&mut self)
        ensures held { Fewer (held self.new) nothing }
        ensures sound { sound self.new };
}
