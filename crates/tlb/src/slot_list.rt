// A translation table in the caller's own records, looked through and changed there.
ghost use Rattle.std.specs.Prelude.{◌≡◌, [], ◌∷◌, length, MatchOption};
ghost use Rattle.tlb.specs.Table.{key_of};
ghost use Rattle.tlb.specs.Slots.{usable, freed, translations_of, Distinct, NoneHolds, HoldsAt, NoneFree, FreeAt};
ghost use Rattle.tlb.specs.Order.{usable_lawful};

use super::info::Info;
use super::page::Page;
use super::size::fit;
use super::table::{TableFault, Tlb};
use super::translation::Translation;

// Frees every record, where their number is one that a table may have.
fn free(records: &mut [Option<Translation>])
    ensures { records.new ≡ freed records.old }
{
    if fit(records.len() as u64) {
        records.fill(None);
    }
}

#[derive(Drop)]
pub struct SlotList<'a> {
    records: &'a mut [Option<Translation>],
}

impl<'a> SlotList<'a> {
    pub fn new(records: &'a mut [Option<Translation>]) -> SlotList<'a>
        ensures records { result.records.now ≡ freed records.old }
        ensures named { result.records.ghost_name ≡ records.entry.ghost_name }
        ensures sound { Distinct (usable result.records.now) }
        ensures translations { translations_of (usable result.records.now) ≡ [] }
    {
        free(records);
        SlotList { records }
    }

    // The records that are slots: all, or none where there are too many. As short as memory's `usable`, over other elements.
    fn slots(&self) -> &[Option<Translation>]
        ensures { result.now ≡ usable self.now.records.now }
    {
        if fit(self.records.len() as u64) {
            self.records
        } else {
            &[]
        }
    }

    // The slot that has the page's translation.
    fn place(&self, page: Page) -> Option<usize>
        ensures { MatchOption result (NoneHolds (usable self.now.records.now) (key_of page.segment page.number)) (HoldsAt (usable self.now.records.now) (key_of page.segment page.number)) }
    {
        self.slots()
            .iter()
            .position(|slot| slot.is_some_and(|t| t.page == page))
    }

    // A slot that is free.
    fn vacant(&self) -> Option<usize>
        ensures { MatchOption result (NoneFree (usable self.now.records.now)) (FreeAt (usable self.now.records.now)) }
    {
        self.slots().iter().position(|slot| slot.is_none())
    }
}

impl<'a> Tlb for SlotList<'a> {
    ghost sound = { λ t. Distinct (usable t.records.now) };

    ghost translations = { λ t. translations_of (usable t.records.now) };

    ghost slots = { λ t. length (usable t.records.now) };

    ghost roots = { λ t. t.records.ghost_name ∷ [] };

    ghost lawful = { λ t _. usable_lawful t.records.now };

    fn find(&mut self, page: Page) -> Option<Info> {
        let i = self.place(page)?;
        self.records[i].map(|translation| translation.info)
    }

    fn insert(&mut self, translation: Translation) -> Result<(), TableFault> {
        // A match: what `vacant` answers is not inferred of a closure for `or_else`, which would need clauses of its own.
        let i = match self.place(translation.page) {
            Some(own) => own,
            None => self.vacant().ok_or(TableFault::Full)?,
        };
        self.records[i] = Some(translation);
        Ok(())
    }

    fn remove(&mut self, page: Page) {
        if let Some(i) = self.place(page) {
            self.records[i] = None;
        }
    }

    fn clear(&mut self) {
        free(self.records);
    }
}
