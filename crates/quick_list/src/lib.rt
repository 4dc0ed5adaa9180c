// A quick list: 16 lines over any translation table, so that a page found before is found again at once.
#![tactic(auto)]

ghost use Rattle.std.specs.Prelude.{◌≡◌, replicate, None};
ghost use Rattle.tlb.specs.Table.{found};
ghost use Rattle.quick_list.specs.Lines.{Agreeing, Lined};

mod page_key;

use line_table::Lines;
use page_key::PageKey;
use tlb::info::Info;
use tlb::page::Page;
use tlb::table::{TableFault, Tlb};
use tlb::translation::Translation;

// The lines are no part of what it means: that is what the table below means. That they agree is a premise and no invariant,
// since the table below may not agree with itself before it is cleared.
#[derive(Drop)]
pub struct QuickList<T: Tlb> {
    table: T,
    lines: Lines<PageKey, Info, 16>,
}

impl<T: Tlb> QuickList<T> {
    pub fn new(table: T) -> QuickList<T>
        ensures table { result.table ≡ table }
        ensures lines { result.lines ≡ replicate 16 None }
        ensures sound { T.Tlb.sound table → Agreeing T.Tlb result }
    {
        QuickList {
            table,
            lines: Lines::new(),
        }
    }
}

impl<T: Tlb> Tlb for QuickList<T> {
    ghost sound = { λ q. Agreeing T.Tlb q };

    ghost translations = { λ q. T.Tlb.translations q.table };

    ghost slots = { λ q. T.Tlb.slots q.table };

    ghost roots = { λ q. T.Tlb.roots q.table };

    ghost lawful = { λ q s. T.Tlb.lawful q.table s.table };

    // A line that answers spares the table; after an answer some line holds it.
    fn find(&mut self, page: Page) -> Option<Info>
        ensures lined { Lined self.new.lines page result }
        ensures answer { Agreeing T.Tlb self.old → result ≡ found (T.Tlb.translations self.old.table) page.segment page.number }
        ensures translations { Agreeing T.Tlb self.old → T.Tlb.translations self.new.table ≡ T.Tlb.translations self.old.table }
        ensures slots { T.Tlb.slots self.new.table ≡ T.Tlb.slots self.old.table }
        ensures sound { Agreeing T.Tlb self.old → Agreeing T.Tlb self.new }
        ensures roots { T.Tlb.roots self.new.table ≡ T.Tlb.roots self.old.table }
    {
        // No `or_else`: what follows changes the lines, and has a `?`.
        if let Some(info) = self.lines.find(PageKey(page)) {
            return Some(info);
        }
        let info = self.table.find(page)?;
        self.lines.put(PageKey(page), info);
        Some(info)
    }

    // What was put in is likely to be asked for next.
    fn insert(&mut self, translation: Translation) -> Result<(), TableFault> {
        self.table.insert(translation)?;
        self.lines.put(PageKey(translation.page), translation.info);
        Ok(())
    }

    fn remove(&mut self, page: Page) {
        self.table.remove(page);
        self.lines.remove(PageKey(page));
    }

    fn clear(&mut self) {
        self.table.clear();
        self.lines.clear();
    }
}
