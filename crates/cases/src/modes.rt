// Images that both modes build to one page.
use super::imaging::Writing;
use page::build::vcpu32_build;
use page::mode::Mode;
use std::process::Abort;
use std::test::Fail;

// LDO: the register counts.
const COUNT_GR2: u32 = 0x0c80_0012;

const COUNT_GR3: u32 = 0x0cc0_0013;

const DIAG: u32 = 0xfc00_0000;

// An image builds to a text, the same in both modes.
fn builds(rt: &(impl Abort + AllocGlobal), image: &[u8], text: &[u8]) -> Result<(), Fail> {
    let mut full_memory = vec![in rt.alloc(); 0u8; 32_768]?;
    let mut fast_memory = vec![in rt.alloc(); 0u8; 32_768]?;
    let mut full = [7u8; 256];
    let mut fast = [7u8; 256];
    let length = vcpu32_build(
        Mode::Full as u32,
        1_000,
        image,
        full_memory.as_mut_slice(),
        &mut full,
    );
    assert_eq!(rt;
        vcpu32_build(
            Mode::Fast as u32,
            1_000,
            image,
            fast_memory.as_mut_slice(),
            &mut fast
        ),
        length
    );
    assert_eq!(rt; &full, &fast);
    assert_eq!(rt; full_memory.as_slice(), fast_memory.as_slice());
    assert_eq!(rt; length, text.len() as u64);
    assert!(rt; text.len() <= 256);
    assert_eq!(rt; &full[0..text.len()], text);
    Ok(())
}

// Pages 0 and 16 of segment 1 fold to one line, and lie in physical pages 0 and 1. Code in the one counts in GR2 and
// branches to the other, which counts in GR3 and branches back.
#[test]
fn code_in_two_pages_of_one_line(rt: HostRuntime) -> Result<(), Fail> {
    let to_page_16 = 0x8000_ffff;
    let to_page_0 = 0x803f_0001;
    let mut image = Writing::new(rt.alloc())?;
    image.place(0, &[COUNT_GR2, to_page_16, COUNT_GR2, DIAG])?;
    image.place(0x4000, &[COUNT_GR3, to_page_0])?;
    image.map(1, 0, 0x1000_0000)?;
    image.map(1, 16, 0x1000_0001)?;
    image.give(3, 0, 1)?;
    image.give(3, 2, 0x2000)?;
    builds(
        &rt,
        image.end()?,
        b"STEPS 6 HALTED\nGR02 00000002\nGR03 00000001\n",
    )
}

// A loop of 100 words, most of them BRK 0, is longer than the decode cache has lines, so lines are taken by turns.
#[test]
fn a_loop_longer_than_the_decode_cache(rt: HostRuntime) -> Result<(), Fail> {
    let back_while_gr2_is_not_gr3 = 0x96ff_9d23;
    let mut image = Writing::new(rt.alloc())?;
    image.place(0, &[COUNT_GR2])?;
    image.place(396, &[back_while_gr2_is_not_gr3, DIAG])?;
    image.give(0, 3, 3)?;
    builds(
        &rt,
        image.end()?,
        b"STEPS 301 HALTED\nGR02 00000003\nGR03 00000003\n",
    )
}
