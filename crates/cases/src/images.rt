// Images that are loaded, and images that are refused.
use super::imaging::Writing;
use decode_cache::cache::DecodeCache;
use decode_cache::empty::EmptyCache;
use image::LoadRefused;
use loader::load;
use machine::machine::Machine;
use memory::memory::Memory;
use memory::ram::Ram;
use memory::rom::Rom;
use page::build::vcpu32_build;
use page::mode::Mode;
use refusal::Layer;
use std::process::Abort;
use std::test::Fail;
use tlb::slot_list::SlotList;
use tlb::table::Tlb;

const EXAMPLE: [u8; 23] = [
    0x01, 0x00, 0x11, 0x01, 0x00, 0x00, 0x00, 0x00, 0x0c, 0x80, 0x00, 0x50, 0x40, 0x80, 0x00, 0x07,
    0xfc, 0x00, 0x00, 0x00, 0x00, 0x01, 0x04,
];

fn loaded<M: Memory, T: Tlb, C: DecodeCache>(
    memory: &mut M,
    tlb: &mut T,
    cache: &mut C,
    image: &[u8],
) -> Result<(), LoadRefused> {
    let mut machine = Machine::new(memory, tlb, cache);
    load(&mut machine, image)
}

fn load_over(memory: &mut [u8], image: &[u8]) -> Result<(), LoadRefused> {
    let mut ram = Ram::new(memory);
    let mut records = [None; 16];
    let mut table = SlotList::new(&mut records);
    let mut cache = EmptyCache;
    loaded(&mut ram, &mut table, &mut cache, image)
}

// A refusal's number, the number and the place of its record, and its layer.
#[derive(Clone, Copy, PartialEq, Eq, Debug, Drop)]
struct Told(u32, u32, u32, Layer);

fn as_told(fault: LoadRefused) -> Told {
    let refused = fault.refused;
    Told(
        refused.refusal.number(),
        fault.spot.record,
        fault.spot.place,
        refused.layer,
    )
}

fn refused(rt: &impl Abort, answer: Result<(), LoadRefused>, fault: Told) {
    assert_eq!(rt; answer.map_err(as_told), Err(fault));
}

// The image is refused over one page of RAM.
fn refuses(rt: &(impl Abort + AllocGlobal), image: &[u8], told: Told) -> Result<(), Fail> {
    let mut memory = vec![in rt.alloc(); 0u8; 16_384]?;
    refused(rt, load_over(memory.as_mut_slice(), image), told);
    Ok(())
}

#[test]
fn the_example_prints_its_page_in_both_modes(rt: HostRuntime) -> Result<(), Fail> {
    for mode in [Mode::Full, Mode::Fast] {
        let mut memory = vec![in rt.alloc(); 0u8; 32_768]?;
        let mut report = [7u8; 256];
        assert_eq!(rt;
            vcpu32_build(
                mode as u32,
                1_000,
                &EXAMPLE,
                memory.as_mut_slice(),
                &mut report
            ),
            29
        );
        assert_eq!(rt;
            &report[0..29],
            b"STEPS 3 HALTED\nGR02 0000000C\n".as_slice()
        );
        assert_eq!(rt; report[29], 7);
    }
    Ok(())
}

#[test]
fn what_is_no_image_is_refused_at_its_start(rt: HostRuntime) -> Result<(), Fail> {
    refuses(&rt, &[], Told(13, 0, 0, Layer::Image))?;
    refuses(&rt, &[2, 0, 1, 4], Told(13, 0, 0, Layer::Image))
}

#[test]
fn a_record_that_is_cut_off_is_refused(rt: HostRuntime) -> Result<(), Fail> {
    refuses(&rt, &[1, 0], Told(14, 0, 1, Layer::Image))?;
    refuses(&rt, &[1, 0, 0, 4], Told(14, 0, 1, Layer::Image))?;
    refuses(
        &rt,
        &[1, 0, 7, 3, 0, 2, 0, 0, 0, 5, 0, 11, 2, 0],
        Told(14, 1, 10, Layer::Image),
    )
}

#[test]
fn a_record_of_no_known_form_is_refused(rt: HostRuntime) -> Result<(), Fail> {
    refuses(&rt, &[1, 0, 1, 5], Told(15, 0, 1, Layer::Image))?;
    refuses(&rt, &[1, 0, 4, 1, 0, 0, 0], Told(15, 0, 1, Layer::Image))?;
    refuses(
        &rt,
        &[1, 0, 7, 3, 0, 2, 0, 0, 0, 5, 0, 2, 4, 0],
        Told(15, 1, 10, Layer::Image),
    )
}

#[test]
fn an_image_without_its_end_is_refused_behind_the_last_record(rt: HostRuntime) -> Result<(), Fail> {
    refuses(&rt, &[1], Told(16, 0, 1, Layer::Image))?;
    refuses(&rt, &[1, 0, 1, 4, 9], Told(16, 1, 4, Layer::Image))?;
    refuses(
        &rt,
        &[1, 0, 7, 3, 0, 2, 0, 0, 0, 5],
        Told(16, 1, 10, Layer::Image),
    )
}

#[test]
fn a_record_is_refused_by_the_layer_that_cannot_do_it(rt: HostRuntime) -> Result<(), Fail> {
    refuses(
        &rt,
        &[1, 0, 6, 1, 0, 0, 0x40, 0, 9, 0, 1, 4],
        Told(9, 0, 1, Layer::Memory),
    )?;
    refuses(
        &rt,
        &[1, 0, 7, 3, 9, 0, 0, 0, 0, 5, 0, 1, 4],
        Told(6, 0, 1, Layer::Machine),
    )?;
    refuses(
        &rt,
        &[1, 0, 7, 3, 3, 2, 0, 0, 0x80, 0, 0, 1, 4],
        Told(7, 0, 1, Layer::Machine),
    )?;
    refuses(
        &rt,
        &[1, 0, 11, 2, 0, 0, 0, 0, 0, 0, 0, 0, 0, 0, 0, 1, 4],
        Told(11, 0, 1, Layer::Machine),
    )
}

#[test]
fn a_record_that_places_into_rom_is_refused(rt: HostRuntime) -> Result<(), Fail> {
    let bytes = vec![in rt.alloc(); 0u8; 16_384]?;
    let mut rom = Rom::new(bytes.as_slice());
    let mut records = [None; 16];
    let mut table = SlotList::new(&mut records);
    let mut cache = EmptyCache;
    let mut image = Writing::new(rt.alloc())?;
    image.give(0, 2, 5)?;
    image.place(0, &[0])?;
    let answer = loaded(&mut rom, &mut table, &mut cache, image.end()?);
    refused(&rt, answer, Told(10, 1, 10, Layer::Memory));
    Ok(())
}

#[test]
fn what_was_placed_before_a_refusal_stays(rt: HostRuntime) -> Result<(), Fail> {
    let mut memory = vec![in rt.alloc(); 0u8; 16_384]?;
    let mut report = [7u8; 256];
    let image = [
        1, 0, 6, 1, 0, 0, 0, 0, 0xab, 0, 7, 3, 9, 0, 0, 0, 0, 5, 0, 1, 4,
    ];
    let answer = vcpu32_build(0, 1_000, &image, memory.as_mut_slice(), &mut report);
    assert_eq!(rt; answer, 1_006 + 65_536 * 9);
    assert_eq!(rt; memory.get(0).copied(), Some(0xab));
    assert_eq!(rt; report[0], 7);
    Ok(())
}

#[test]
fn nothing_is_placed_of_an_image_with_a_fault(rt: HostRuntime) -> Result<(), Fail> {
    let mut memory = vec![in rt.alloc(); 0u8; 16_384]?;
    let image = [1, 0, 6, 1, 0, 0, 0, 0, 0xab, 0, 1, 9];
    assert!(rt; load_over(memory.as_mut_slice(), &image).is_err());
    assert_eq!(rt; memory.get(0).copied(), Some(0));
    Ok(())
}

#[test]
fn a_build_is_refused_in_the_order_of_the_numbers(rt: HostRuntime) -> Result<(), Fail> {
    let mut memory = vec![in rt.alloc(); 0u8; 16_385]?;
    let mut short = [0u8; 255];
    let mut long = [0u8; 256];
    assert_eq!(rt;
        vcpu32_build(2, 2_000_000, &[], memory.as_mut_slice(), &mut short),
        1_001
    );
    assert_eq!(rt;
        vcpu32_build(1, 2_000_000, &[], memory.as_mut_slice(), &mut short),
        1_002
    );
    memory.truncate(16_384);
    assert_eq!(rt;
        vcpu32_build(1, 2_000_000, &[], memory.as_mut_slice(), &mut short),
        1_003
    );
    assert_eq!(rt;
        vcpu32_build(1, 1_000_001, &[], memory.as_mut_slice(), &mut long),
        1_005
    );
    assert_eq!(rt;
        vcpu32_build(1, 1_000_000, &[], memory.as_mut_slice(), &mut long),
        1_013
    );
    Ok(())
}
