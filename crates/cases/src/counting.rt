// How often a machine asks its parts: what lines have is asked of nobody else.
use decode_cache::cache::DecodeCache;
use decode_cache::empty::EmptyCache;
use decode_cache::lines::LineCache;
use machine::machine::Machine;
use memory::memory::{Memory, MemoryFault};
use memory::ram::Ram;
use quick_list::QuickList;
use refusal::Refused;
use std::cell::Cell;
use std::process::Abort;
use std::test::Fail;
use tlb::info::Info;
use tlb::page::Page;
use tlb::slot_list::SlotList;
use tlb::table::{TableFault, Tlb};
use tlb::translation::Translation;

// A memory that counts its reads.
#[derive(Drop)]
struct CountingMemory<'a, M: Memory> {
    memory: M,
    reads: &'a Cell<u32>,
}

impl<'a, M: Memory> Memory for CountingMemory<'a, M> {
    ghost bytes = { λ m. M.Memory.bytes m.memory };

    ghost marks = { λ m. M.Memory.marks m.memory };

    ghost roots = { λ m. M.Memory.roots m.memory };

    ghost paged = { λ m. M.Memory.paged m.memory };

    fn pages(&self) -> u64 {
        self.memory.pages()
    }

    fn marked(&self, page: u64) -> bool {
        self.memory.marked(page)
    }

    fn read(&self, address: u64, width: u32) -> Result<u32, MemoryFault> {
        self.reads.set(self.reads.get().wrapping_add(1));
        self.memory.read(address, width)
    }

    fn write(&mut self, address: u64, width: u32, value: u32) -> Result<(), MemoryFault> {
        self.memory.write(address, width, value)
    }
}

// A table that counts its finds.
#[derive(Drop)]
struct CountingTable<'a, T: Tlb> {
    table: T,
    finds: &'a Cell<u32>,
}

impl<'a, T: Tlb> Tlb for CountingTable<'a, T> {
    ghost sound = { λ t. T.Tlb.sound t.table };

    ghost translations = { λ t. T.Tlb.translations t.table };

    ghost slots = { λ t. T.Tlb.slots t.table };

    ghost roots = { λ t. T.Tlb.roots t.table };

    ghost lawful = { λ t s. T.Tlb.lawful t.table s };

    fn find(&mut self, page: Page) -> Option<Info> {
        self.finds.set(self.finds.get().wrapping_add(1));
        self.table.find(page)
    }

    fn insert(&mut self, translation: Translation) -> Result<(), TableFault> {
        self.table.insert(translation)
    }

    fn remove(&mut self, page: Page) {
        self.table.remove(page);
    }

    fn clear(&mut self) {
        self.table.clear();
    }
}

// 100 steps of a loop of two words, fetched through a translation.
fn looped<M: Memory, T: Tlb, C: DecodeCache>(
    memory: &mut M,
    tlb: &mut T,
    cache: &mut C,
) -> Result<u32, Refused> {
    let mut machine = Machine::new(memory, tlb, cache);
    machine.place(0, &[0, 0, 0, 0, 0x80, 0x3f, 0xff, 0xff])?;
    machine.map(1, 0, 0x1000_0000)?;
    machine.give(3, 0, 1)?;
    machine.give(3, 2, 0x2000)?;
    Ok(machine.run(100)?.steps)
}

// How often the memory and the table below are asked in those steps.
#[derive(Clone, Copy, PartialEq, Eq, Debug, Drop)]
struct Asked {
    reads: u32,
    finds: u32,
}

// The steps over a memory and a table that count, and over whatever lines there are on the table and for instructions.
fn count_asked<T: Tlb + Drop, C: DecodeCache + Drop>(
    rt: &(impl Abort + AllocGlobal),
    reads: &Cell<u32>,
    finds: &Cell<u32>,
    mut table: T,
    mut cache: C,
) -> Result<Asked, Fail> {
    let mut bytes = vec![in rt.alloc(); 0u8; 16_384]?;
    let mut memory = CountingMemory {
        memory: Ram::new(bytes.as_mut_slice()),
        reads,
    };
    assert_eq!(rt; looped(&mut memory, &mut table, &mut cache)?, 100);
    Ok(Asked {
        reads: reads.get(),
        finds: finds.get(),
    })
}

// Each of the two words is read once, and the quick list has had the page since it was mapped.
#[test]
fn lines_spare_finds_and_reads(rt: HostRuntime) -> Result<(), Fail> {
    let reads = Cell::new(0);
    let finds = Cell::new(0);
    let mut records = [None; 1];
    let table = QuickList::new(CountingTable {
        table: SlotList::new(&mut records),
        finds: &finds,
    });
    let asked = count_asked(&rt, &reads, &finds, table, LineCache::new())?;
    assert_eq!(rt; asked.reads, 2);
    assert_eq!(rt; asked.finds, 0);
    Ok(())
}

#[test]
fn without_lines_every_fetch_finds_and_reads(rt: HostRuntime) -> Result<(), Fail> {
    let reads = Cell::new(0);
    let finds = Cell::new(0);
    let mut records = [None; 1];
    let table = CountingTable {
        table: SlotList::new(&mut records),
        finds: &finds,
    };
    let asked = count_asked(&rt, &reads, &finds, table, EmptyCache)?;
    assert_eq!(rt; asked.reads, 100);
    assert_eq!(rt; asked.finds, 100);
    Ok(())
}
