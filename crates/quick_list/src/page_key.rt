// A page as the key of a line.
ghost use Rattle.quick_list.specs.Lines.{folded, whole};

use line_table::key::Key;
use tlb::page::Page;

#[derive(Clone, Copy, PartialEq, Eq, Debug)]
pub struct PageKey(pub Page);

impl Key for PageKey {
    ghost fold = { folded };

    // Segment and number together, so that neighbours in either have lines of their own.
    fn fold(self) -> usize {
        usize::from(self.0.segment) + self.0.number as usize
    }

    ghost whole = { whole };
}
