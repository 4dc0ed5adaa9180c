// ROM and RAM joined, by themselves and below a machine.
use decode_cache::cache::DecodeCache;
use decode_cache::lines::LineCache;
use machine::machine::Machine;
use memory::joined::{Joined, check as check_join};
use memory::memory::{Memory, MemoryFault};
use memory::ram::Ram;
use memory::rom::Rom;
use refusal::Refused;
use std::process::Abort;
use std::test::Fail;
use tlb::slot_list::SlotList;
use tlb::table::Tlb;

const PAGE: usize = 16_384;

// A memory has these marks, and no more pages.
fn marks<M: Memory>(rt: &impl Abort, memory: &M, all: &[bool]) {
    assert_eq!(rt; memory.pages(), all.len() as u64);
    for (page, mark) in all.iter().enumerate() {
        assert_eq!(rt; memory.marked(page as u64), *mark);
    }
    assert_eq!(rt; memory.marked(all.len() as u64), false);
}

// A read, and what it answers.
#[derive(Clone, Copy)]
struct Read(u64, u32, Result<u32, MemoryFault>);

fn reads<M: Memory>(rt: &impl Abort, memory: &M, all: &[Read]) {
    for read in all {
        assert_eq!(rt; memory.read(read.0, read.1), read.2);
    }
}

// A write of one byte, and what it answers.
#[derive(Clone, Copy)]
struct Write(u64, u32, Result<(), MemoryFault>);

fn writes<M: Memory>(rt: &impl Abort, memory: &mut M, all: &[Write]) {
    for write in all {
        assert_eq!(rt; memory.write(write.0, 1, write.1), write.2);
    }
}

#[test]
fn ram_below_rom(rt: HostRuntime) -> Result<(), Fail> {
    let mut low = vec![in rt.alloc(); 1u8; PAGE]?;
    let high = vec![in rt.alloc(); 2u8; 2 * PAGE]?;
    let mut both = Joined::new(Ram::new(low.as_mut_slice()), Rom::new(high.as_slice()));
    marks(&rt, &both, &[false, true, true]);
    writes(
        &rt,
        &mut both,
        &[
            Write(16_383, 9, Ok(())),
            Write(16_384, 9, Err(MemoryFault::ReadOnly)),
            Write(49_151, 9, Err(MemoryFault::ReadOnly)),
            Write(49_152, 9, Err(MemoryFault::Outside)),
        ],
    );
    reads(
        &rt,
        &both,
        &[
            Read(16_380, 4, Ok(0x0101_0109)),
            Read(16_384, 4, Ok(0x0202_0202)),
            Read(49_148, 4, Ok(0x0202_0202)),
            Read(16_383, 2, Err(MemoryFault::Outside)),
            Read(49_152, 1, Err(MemoryFault::Outside)),
        ],
    );
    Ok(())
}

#[test]
fn rom_below_ram(rt: HostRuntime) -> Result<(), Fail> {
    let low = vec![in rt.alloc(); 1u8; 2 * PAGE]?;
    let mut high = vec![in rt.alloc(); 2u8; PAGE]?;
    let mut both = Joined::new(Rom::new(low.as_slice()), Ram::new(high.as_mut_slice()));
    marks(&rt, &both, &[true, true, false]);
    writes(
        &rt,
        &mut both,
        &[
            Write(32_767, 9, Err(MemoryFault::ReadOnly)),
            Write(32_768, 9, Ok(())),
        ],
    );
    reads(
        &rt,
        &both,
        &[Read(32_766, 2, Ok(0x0101)), Read(32_768, 2, Ok(0x0902))],
    );
    Ok(())
}

#[test]
fn three_memories_joined_twice(rt: HostRuntime) -> Result<(), Fail> {
    let bottom = vec![in rt.alloc(); 1u8; PAGE]?;
    let mut middle = vec![in rt.alloc(); 2u8; PAGE]?;
    let top = vec![in rt.alloc(); 3u8; PAGE]?;
    let lower = Joined::new(Rom::new(bottom.as_slice()), Ram::new(middle.as_mut_slice()));
    let mut all = Joined::new(lower, Rom::new(top.as_slice()));
    marks(&rt, &all, &[true, false, true]);
    writes(
        &rt,
        &mut all,
        &[
            Write(16_383, 9, Err(MemoryFault::ReadOnly)),
            Write(16_384, 9, Ok(())),
            Write(32_768, 9, Err(MemoryFault::ReadOnly)),
            Write(49_152, 9, Err(MemoryFault::Outside)),
        ],
    );
    reads(
        &rt,
        &all,
        &[
            Read(16_380, 4, Ok(0x0101_0101)),
            Read(16_384, 4, Ok(0x0902_0202)),
            Read(32_768, 4, Ok(0x0303_0303)),
        ],
    );
    Ok(())
}

// Bytes joined with bytes make so many pages, and the check call agrees.
fn joins(rt: &impl Abort, low: &[u8], high: &[u8], pages: u64) {
    let lower = Rom::new(low);
    let upper = Rom::new(high);
    assert_eq!(rt; check_join(&lower, &upper).is_ok(), pages > 0);
    let both = Joined::new(lower, upper);
    assert_eq!(rt; both.pages(), pages);
    assert_eq!(rt; both.read(0, 1).is_ok(), pages > 0);
}

#[test]
fn what_does_not_join_has_no_pages(rt: HostRuntime) -> Result<(), Fail> {
    let most = vec![in rt.alloc(); 0u8; 128 * PAGE]?;
    let more = vec![in rt.alloc(); 0u8; 129 * PAGE]?;
    joins(&rt, most.as_slice(), most.as_slice(), 256);
    joins(&rt, most.as_slice(), more.as_slice(), 0);
    joins(&rt, &[], most.as_slice(), 0);
    joins(&rt, most.as_slice(), &[0], 0);
    Ok(())
}

// What stands at an address after bytes were placed there, and whether they were; `None` where a look is refused.
fn placed<M: Memory, T: Tlb, C: DecodeCache>(
    memory: &mut M,
    tlb: &mut T,
    cache: &mut C,
    address: u32,
    bytes: &[u8],
) -> (bool, Option<[u8; 8]>) {
    let mut machine = Machine::new(memory, tlb, cache);
    let accepted = machine.place(address, bytes).is_ok();
    let mut seen = [7; 8];
    let looked = machine.look(address, &mut seen).is_ok();
    (accepted, looked.then_some(seen))
}

// Over a page of ROM, one of RAM and one of ROM, filled with 1, 2 and 3.
fn place(rt: &HostRuntime, address: u32, bytes: &[u8]) -> Result<(bool, Option<[u8; 8]>), Fail> {
    let bottom = vec![in rt.alloc(); 1u8; PAGE]?;
    let mut middle = vec![in rt.alloc(); 2u8; PAGE]?;
    let top = vec![in rt.alloc(); 3u8; PAGE]?;
    let upper = Joined::new(Ram::new(middle.as_mut_slice()), Rom::new(top.as_slice()));
    let mut all = Joined::new(Rom::new(bottom.as_slice()), upper);
    let mut records = [None; 1];
    let mut table = SlotList::new(&mut records);
    let mut cache = LineCache::new();
    Ok(placed(&mut all, &mut table, &mut cache, address, bytes))
}

#[test]
fn a_range_is_placed_whole_or_not_at_all(rt: HostRuntime) -> Result<(), Fail> {
    assert_eq!(rt;
        place(&rt, 16_380, &[9; 8])?,
        (false, Some([1, 1, 1, 1, 2, 2, 2, 2]))
    );
    assert_eq!(rt;
        place(&rt, 32_764, &[9; 8])?,
        (false, Some([2, 2, 2, 2, 3, 3, 3, 3]))
    );
    assert_eq!(rt;
        place(&rt, 32_764, &[9; 4])?,
        (true, Some([9, 9, 9, 9, 3, 3, 3, 3]))
    );
    assert_eq!(rt; place(&rt, 16_384, &[])?, (true, Some([2; 8])));
    Ok(())
}

#[test]
fn a_range_ends_within_memory_or_is_refused(rt: HostRuntime) -> Result<(), Fail> {
    assert_eq!(rt; place(&rt, 49_145, &[9; 8])?, (false, None));
    assert_eq!(rt; place(&rt, u32::MAX, &[9; 8])?, (false, None));
    assert_eq!(rt; place(&rt, 49_152, &[])?, (true, None));
    assert_eq!(rt; place(&rt, 49_153, &[])?, (false, None));
    assert_eq!(rt; place(&rt, 49_144, &[])?, (true, Some([3; 8])));
    Ok(())
}

// Zero bytes can be looked at up to the end itself.
fn looked<M: Memory, T: Tlb, C: DecodeCache>(
    rt: &impl Abort,
    memory: &mut M,
    tlb: &mut T,
    cache: &mut C,
) {
    let machine = Machine::new(memory, tlb, cache);
    assert!(rt; machine.look(16_384, &mut []).is_ok());
    assert!(rt; machine.look(16_384, &mut [0]).is_err());
    assert!(rt; machine.look(16_385, &mut []).is_err());
}

#[test]
fn nothing_is_looked_at_past_the_end(rt: HostRuntime) -> Result<(), Fail> {
    let bytes = vec![in rt.alloc(); 1u8; PAGE]?;
    let mut rom = Rom::new(bytes.as_slice());
    let mut records = [None; 1];
    let mut table = SlotList::new(&mut records);
    let mut cache = LineCache::new();
    looked(&rt, &mut rom, &mut table, &mut cache);
    Ok(())
}

// Code in the upper part, LDO to count in GR2 and DIAG, is run where it stands.
fn counted<M: Memory, T: Tlb, C: DecodeCache>(
    memory: &mut M,
    tlb: &mut T,
    cache: &mut C,
) -> Result<u32, Refused> {
    let mut machine = Machine::new(memory, tlb, cache);
    machine.give(3, 1, 16_384)?;
    machine.run(10)?;
    Ok(machine.registers().general(2))
}

#[test]
fn code_runs_from_rom_above_ram(rt: HostRuntime) -> Result<(), Fail> {
    let mut low = vec![in rt.alloc(); 0u8; PAGE]?;
    let mut high = Vec::new(rt.alloc());
    high.extend_from_slice(&[0x0c, 0x80, 0x00, 0x12, 0xfc, 0, 0, 0])?;
    high.resize(PAGE, 0)?;
    let mut both = Joined::new(Ram::new(low.as_mut_slice()), Rom::new(high.as_slice()));
    let mut records = [None; 1];
    let mut table = SlotList::new(&mut records);
    let mut cache = LineCache::new();
    assert_eq!(rt; counted(&mut both, &mut table, &mut cache)?, 1);
    Ok(())
}
