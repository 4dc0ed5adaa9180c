// Reports and notices.
use decode_cache::cache::DecodeCache;
use decode_cache::empty::EmptyCache;
use machine::machine::Machine;
use memory::memory::Memory;
use memory::ram::Ram;
use page::notice;
use page::report::report;
use refusal::{Refusal, Refused};
use std::test::Fail;
use tlb::slot_list::SlotList;
use tlb::table::Tlb;

fn fresh_report<M: Memory, T: Tlb, C: DecodeCache>(
    memory: &mut M,
    tlb: &mut T,
    cache: &mut C,
    buffer: &mut [u8],
) -> Result<u64, Refused> {
    let machine = Machine::new(memory, tlb, cache);
    report(&machine, buffer)
}

#[test]
fn a_fresh_machine_has_made_no_step(rt: HostRuntime) -> Result<(), Fail> {
    let mut memory = vec![in rt.alloc(); 0u8; 16_384]?;
    let mut buffer = [7u8; 256];
    let mut ram = Ram::new(memory.as_mut_slice());
    let mut records = [None; 1];
    let mut table = SlotList::new(&mut records);
    let mut cache = EmptyCache;
    let answer = fresh_report(&mut ram, &mut table, &mut cache, &mut buffer);
    assert_eq!(rt; answer.is_ok(), true);
    assert_eq!(rt; &buffer[0..15], b"STEPS 0 SPENT\n\x07".as_slice());
    Ok(())
}

#[test]
fn a_notice_takes_any_number(rt: HostRuntime) {
    let mut buffer = [7u8; 256];
    assert_eq!(rt; notice(0, &mut buffer), Ok(10));
    assert_eq!(rt; &buffer[0..11], b"REFUSED 0\n\x07".as_slice());
    assert_eq!(rt; notice(u64::MAX, &mut buffer), Ok(29));
    assert_eq!(rt;
        &buffer[0..30],
        b"REFUSED 18446744073709551615\n\x07".as_slice()
    );
}

#[test]
fn a_short_buffer_is_refused_and_left(rt: HostRuntime) {
    let mut buffer = [7u8; 255];
    assert_eq!(rt; notice(5, &mut buffer), Err(Refusal::SmallBuffer));
    assert_eq!(rt; buffer[0], 7);
}
