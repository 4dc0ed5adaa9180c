// The cache of 64 lines: words that follow each other stand in lines that do.
ghost use Rattle.std.specs.Prelude.{◌≡◌, true, replicate, Some, None};
ghost use Rattle.decode_cache.specs.Held.{Fewer, SameBut, LosesOne, with_one, without_one};
ghost use Rattle.decode_cache.specs.Lines.{word_of, whole, in_lines};

use super::cache::{DecodeCache, Decoded};
use line_table::Lines;
use line_table::key::Key;

// The physical address of a word.
#[derive(Clone, Copy, PartialEq, Eq, Debug)]
struct Address(u64);

impl Key for Address {
    ghost fold = { word_of };

    fn fold(self) -> usize {
        (self.0 / 4) as usize
    }

    ghost whole = { whole };
}

#[derive(Drop)]
pub struct LineCache {
    lines: Lines<Address, Decoded, 64>,
}

impl LineCache {
    pub fn new() -> LineCache
        ensures { result.lines ≡ replicate 64 None }
    {
        LineCache {
            lines: Lines::new(),
        }
    }
}

impl DecodeCache for LineCache {
    ghost sound = { λ _. Unit {0} };

    ghost held = { λ c. in_lines c.lines };

    ghost retains = { true };

    fn recall(&self, address: u64) -> Option<Decoded> {
        self.lines.find(Address(address))
    }

    // What is kept is always held, and at most one other word is lost for it.
    fn keep(&mut self, address: u64, decoded: Decoded)
        ensures loses { LosesOne address (in_lines self.new.lines) (in_lines self.old.lines) }
        ensures retained { in_lines self.new.lines address ≡ Some decoded }
        ensures held { Fewer (in_lines self.new.lines) (with_one (in_lines self.old.lines) address decoded) }
    {
        self.lines.put(Address(address), decoded);
    }

    // The word is gone, and no other is lost.
    fn forget(&mut self, address: u64)
        ensures gone { in_lines self.new.lines address ≡ None }
        ensures others { SameBut address (in_lines self.new.lines) (in_lines self.old.lines) }
        ensures held { Fewer (in_lines self.new.lines) (without_one (in_lines self.old.lines) address) }
    {
        self.lines.remove(Address(address));
    }

    fn clear(&mut self) {
        self.lines.clear();
    }
}
