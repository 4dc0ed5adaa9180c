// What a machine asks of its translation table. No method asks anything of its caller.
ghost use Rattle.std.specs.Prelude.{◌≡◌, ℕ, List, []};
ghost use Rattle.tlb.specs.declared.translation.Translation.{Translation};
ghost use Rattle.tlb.specs.Raised.{raised};
ghost use Rattle.tlb.specs.Table.{found, inserting, inserted, without, Lawful};

use super::info::Info;
use super::page::Page;
use super::translation::Translation;
use refusal::{Layer, Refusal, Refused};

// Why an insert is refused.
#[derive(Clone, Copy, PartialEq, Eq, Debug, Drop)]
pub enum TableFault {
    Full,
}

// The layer is told here, where the fault arises.
impl From<TableFault> for Refused {
    ghost from_gives = { λ f r. r ≡ raised f };

    fn from(fault: TableFault) -> Refused {
        match fault {
            TableFault::Full => Refused {
                refusal: Refusal::NoFreeSlot,
                layer: Layer::Table,
            },
        }
    }
}

pub trait Tlb {
    // Whether its parts agree with one another: `clear` makes it so, whatever was there. It is a premise of promises and no
    // invariant, so that a table can be made over anything.
    ghost sound: { Self → Type 0 };

    // In rising order of segment and page, so that equal sets are equal lists.
    ghost translations: { Self → List Translation };

    ghost slots: { Self → ℕ };

    // The ghost names of the records lent to it.
    ghost roots: { Self → List ℕ };

    ghost lawful: { (t : Self) → sound t → Lawful (translations t) (slots t) };

    // Definitions take segment and number, since a table's order is over one number made of both.
    fn find(&mut self, page: Page) -> Option<Info>
        ensures answer { sound self.old → result ≡ found (translations self.old) page.segment page.number }
        ensures translations { sound self.old → translations self.new ≡ translations self.old }
        ensures slots { slots self.new ≡ slots self.old }
        ensures sound { sound self.old → sound self.new }
        ensures roots { roots self.new ≡ roots self.old };

    fn insert(&mut self, translation: Translation) -> Result<(), TableFault>
        ensures answer { sound self.old → result ≡ inserting (translations self.old) (slots self.old) translation }
        ensures translations { sound self.old → translations self.new ≡ inserted (translations self.old) (slots self.old) translation }
        ensures slots { slots self.new ≡ slots self.old }
        ensures sound { sound self.old → sound self.new }
        ensures roots { roots self.new ≡ roots self.old };

    fn remove(&mut self, page: Page)
        ensures translations { sound self.old → translations self.new ≡ without page.segment page.number (translations self.old) }
        ensures slots { slots self.new ≡ slots self.old }
        ensures sound { sound self.old → sound self.new }
        ensures roots { roots self.new ≡ roots self.old };

    fn clear(&mut self)
        ensures translations { translations self.new ≡ [] }
        ensures slots { slots self.new ≡ slots self.old }
        ensures sound { sound self.new }
        ensures roots { roots self.new ≡ roots self.old };
}
