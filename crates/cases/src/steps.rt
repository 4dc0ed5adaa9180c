// Single steps, with values worked out by hand.
use decode_cache::cache::DecodeCache;
use decode_cache::empty::EmptyCache;
use decode_cache::lines::LineCache;
use machine::machine::Machine;
use memory::memory::Memory;
use memory::ram::Ram;
use refusal::Refused;
use registers::registers::Registers;
use std::test::Fail;
use tlb::slot_list::SlotList;
use tlb::table::Tlb;

// A register to set before the step: class, number and value.
#[derive(Clone, Copy)]
struct Given(u32, u32, u32);

// The trap that a step took, or 0, and the registers after it.
#[derive(Clone, Copy, Drop)]
struct Outcome {
    trap: u32,
    registers: Registers,
}

// The word stands at physical address 0x4008, which segment 7 reaches at the same offset through the info word.
fn prepared<M: Memory, T: Tlb, C: DecodeCache>(
    memory: &mut M,
    tlb: &mut T,
    cache: &mut C,
    word: u32,
    info: u32,
    given: &[Given],
) -> Result<Outcome, Refused> {
    let mut machine = Machine::new(memory, tlb, cache);
    machine.place(0x4008, &word.to_be_bytes())?;
    machine.map(7, 1, info)?;
    machine.give(3, 1, 0x4008)?;
    for register in given {
        machine.give(register.0, register.1, register.2)?;
    }
    let trap = machine.step()?;
    Ok(Outcome {
        trap,
        registers: *machine.registers(),
    })
}

fn step(rt: &HostRuntime, word: u32, info: u32, given: &[Given]) -> Result<Outcome, Fail> {
    let mut bytes = vec![in rt.alloc(); 0u8; 32_768]?;
    let mut ram = Ram::new(bytes.as_mut_slice());
    let mut records = [None; 4];
    let mut table = SlotList::new(&mut records);
    let mut cache = EmptyCache;
    let outcome = prepared(&mut ram, &mut table, &mut cache, word, info, given)?;
    Ok(outcome)
}

#[test]
fn addition_sets_the_carry(rt: HostRuntime) -> Result<(), Fail> {
    let sum = step(&rt, 0x4080_0007, 0, &[Given(0, 2, 5)])?;
    assert_eq!(rt; sum.trap, 0);
    assert_eq!(rt; sum.registers.general(2), 12);
    assert_eq!(rt; sum.registers.status().carry, false);
    let over = step(&rt, 0x4080_0001, 0, &[Given(0, 2, 0xffff_ffff)])?;
    assert_eq!(rt; over.registers.general(2), 0);
    assert_eq!(rt; over.registers.status().carry, true);
    Ok(())
}

#[test]
fn overflow_traps_and_leaves_the_register(rt: HostRuntime) -> Result<(), Fail> {
    let trapped = step(&rt, 0x4090_0001, 0, &[Given(0, 2, 0x7fff_ffff)])?;
    assert_eq!(rt; trapped.trap, 8);
    assert_eq!(rt; trapped.registers.general(2), 0x7fff_ffff);
    assert_eq!(rt; trapped.registers.control(18), 0x4008);
    assert_eq!(rt; trapped.registers.control(19), 0x4090_0001);
    assert_eq!(rt; trapped.registers.offset(), 256);
    Ok(())
}

#[test]
fn a_borrow_is_subtracted(rt: HostRuntime) -> Result<(), Fail> {
    let out = step(
        &rt,
        0x4c84_0034,
        0,
        &[Given(0, 3, 5), Given(0, 4, 7), Given(3, 2, 0x0800)],
    )?;
    assert_eq!(rt; out.registers.general(2), 0xffff_fffd);
    assert_eq!(rt; out.registers.status().carry, true);
    Ok(())
}

#[test]
fn an_immediate_sum_goes_to_register_one(rt: HostRuntime) -> Result<(), Fail> {
    let out = step(&rt, 0x0880_0001, 0, &[Given(0, 2, 3)])?;
    assert_eq!(rt; out.registers.general(1), 0x403);
    assert_eq!(rt; out.registers.general(2), 3);
    assert_eq!(rt; out.registers.offset(), 0x400c);
    Ok(())
}

#[test]
fn a_break_of_zero_passes_and_any_other_traps(rt: HostRuntime) -> Result<(), Fail> {
    assert_eq!(rt; step(&rt, 0, 0, &[])?.trap, 0);
    assert_eq!(rt; step(&rt, 1, 0, &[])?.trap, 15);
    assert_eq!(rt; step(&rt, 0x4088_0000, 0, &[])?.trap, 6);
    Ok(())
}

#[test]
fn a_branch_back_links_forward(rt: HostRuntime) -> Result<(), Fail> {
    let out = step(&rt, 0x807f_ffff, 0, &[])?;
    assert_eq!(rt; out.registers.general(1), 0x400c);
    assert_eq!(rt; out.registers.offset(), 0x4004);
    let taken = step(&rt, 0x96ff_ff20, 0, &[Given(0, 2, 1)])?;
    assert_eq!(rt; taken.registers.offset(), 0x4004);
    Ok(())
}

#[test]
fn the_lowest_open_line_is_taken(rt: HostRuntime) -> Result<(), Fail> {
    let out = step(
        &rt,
        0,
        0,
        &[
            Given(2, 22, 0x0440_0000),
            Given(3, 3, 0x0440_0000),
            Given(3, 2, 1),
        ],
    )?;
    assert_eq!(rt; out.trap, 2);
    assert_eq!(rt; out.registers.control(17), 0x0001_0000);
    assert_eq!(rt; out.registers.control(19), 0);
    assert_eq!(rt; out.registers.control(21), 5);
    assert_eq!(rt; out.registers.offset(), 64);
    Ok(())
}

#[test]
fn user_level_fetches_through_a_translation_only(rt: HostRuntime) -> Result<(), Fail> {
    let user = [Given(3, 0, 7), Given(3, 2, 0x6000), Given(2, 16, 0x1000)];
    let starred = step(&rt, 0xfc00_0000, 0x1600_0001, &user)?;
    assert_eq!(rt; starred.trap, 7);
    assert_eq!(rt; starred.registers.control(17), 0x6000_0007);
    assert_eq!(rt; starred.registers.control(18), 0x4008);
    assert_eq!(rt; starred.registers.offset(), 0x10e0);
    assert_eq!(rt; step(&rt, 0, 0x0e00_0001, &user)?.trap, 4);
    assert_eq!(rt;
        step(&rt, 0, 0x1600_0001, &[Given(3, 0, 8), Given(3, 2, 0x6000)])?.trap,
        3
    );
    assert_eq!(rt;
        step(&rt, 0, 0x1600_0001, &[Given(3, 0, 7), Given(3, 2, 0x4000)])?.trap,
        4
    );
    assert_eq!(rt; step(&rt, 0, 0x1600_0002, &user)?.trap, 1);
    Ok(())
}

#[test]
fn a_checked_page_asks_for_a_protection_id(rt: HostRuntime) -> Result<(), Fail> {
    let without = [Given(3, 0, 7), Given(3, 2, 0x6002)];
    assert_eq!(rt; step(&rt, 0, 0x3600_0001, &without)?.trap, 5);
    let high = [
        Given(3, 0, 7),
        Given(3, 2, 0x6002),
        Given(2, 6, 0x0007_0000),
    ];
    assert_eq!(rt; step(&rt, 0, 0x3600_0001, &high)?.trap, 0);
    Ok(())
}

#[test]
fn a_fetch_lowers_the_level(rt: HostRuntime) -> Result<(), Fail> {
    let out = step(&rt, 0, 0x1600_0001, &[Given(3, 0, 7), Given(3, 2, 0x2000)])?;
    assert_eq!(rt; out.trap, 0);
    assert_eq!(rt; out.registers.user(), true);
    let starred = step(
        &rt,
        0xfc00_0000,
        0x1600_0001,
        &[Given(3, 0, 7), Given(3, 2, 0x2000)],
    )?;
    assert_eq!(rt; starred.trap, 7);
    assert_eq!(rt; starred.registers.control(17), 0x2000_0007);
    Ok(())
}

// LDO counts in GR2 by 1; a byte placed into its word makes that 257. The word was cached by then.
fn counted_twice<M: Memory, T: Tlb, C: DecodeCache>(
    memory: &mut M,
    tlb: &mut T,
    cache: &mut C,
) -> Result<u32, Refused> {
    let mut machine = Machine::new(memory, tlb, cache);
    machine.place(0, &0x0c80_0012u32.to_be_bytes())?;
    machine.step()?;
    machine.place(2, &[0x10])?;
    machine.give(3, 1, 0)?;
    machine.step()?;
    Ok(machine.registers().general(2))
}

#[test]
fn a_byte_placed_into_a_cached_word_counts(rt: HostRuntime) -> Result<(), Fail> {
    let mut bytes = vec![in rt.alloc(); 0u8; 16_384]?;
    let mut ram = Ram::new(bytes.as_mut_slice());
    let mut records = [None; 1];
    let mut table = SlotList::new(&mut records);
    let mut cache = LineCache::new();
    assert_eq!(rt; counted_twice(&mut ram, &mut table, &mut cache)?, 258);
    Ok(())
}
