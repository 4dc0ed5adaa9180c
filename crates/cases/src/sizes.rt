// How large memories and tables may be.
use memory::memory::{Memory, MemoryFault};
use memory::ram::Ram;
use memory::size::check as check_memory;
use std::process::Abort;
use std::test::Fail;
use tlb::size::check as check_table;

// So many bytes make a RAM of so many pages, and the check call agrees.
fn makes(rt: &(impl Abort + AllocGlobal), bytes: usize, pages: u64) -> Result<(), Fail> {
    let mut memory = vec![in rt.alloc(); 0u8; bytes]?;
    let ram = Ram::new(memory.as_mut_slice());
    assert_eq!(rt; ram.pages(), pages);
    assert_eq!(rt; check_memory(bytes as u64).is_ok(), pages > 0);
    Ok(())
}

#[test]
fn a_memory_has_whole_pages_or_none(rt: HostRuntime) -> Result<(), Fail> {
    makes(&rt, 0, 0)?;
    makes(&rt, 16_383, 0)?;
    makes(&rt, 16_384, 1)?;
    makes(&rt, 16_385, 0)?;
    makes(&rt, 256 * 16_384, 256)?;
    makes(&rt, 257 * 16_384, 0)
}

#[test]
fn an_access_is_of_one_two_or_four_bytes_in_its_place(rt: HostRuntime) -> Result<(), Fail> {
    let mut memory = vec![in rt.alloc(); 0u8; 16_384]?;
    let mut ram = Ram::new(memory.as_mut_slice());
    assert_eq!(rt; ram.write(16_380, 4, 0x0102_0304), Ok(()));
    assert_eq!(rt; ram.read(16_382, 2), Ok(0x0304));
    assert_eq!(rt; ram.read(16_383, 1), Ok(0x04));
    assert_eq!(rt; ram.read(16_381, 2), Err(MemoryFault::Outside));
    assert_eq!(rt; ram.read(0, 3), Err(MemoryFault::Outside));
    assert_eq!(rt; ram.read(16_384, 1), Err(MemoryFault::Outside));
    assert_eq!(rt; ram.read(u64::MAX, 4), Err(MemoryFault::Outside));
    Ok(())
}

#[test]
fn a_table_has_one_to_1024_slots(rt: HostRuntime) {
    assert!(rt; check_table(0).is_err());
    assert!(rt; check_table(1).is_ok());
    assert!(rt; check_table(1_024).is_ok());
    assert!(rt; check_table(1_025).is_err());
}
