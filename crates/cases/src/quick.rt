// The quick list: pages that share a line are told apart.
use quick_list::QuickList;
use std::process::Abort;
use tlb::info::Info;
use tlb::page::Page;
use tlb::slot_list::SlotList;
use tlb::table::Tlb;
use tlb::translation::Translation;

// A segment, a page, and the physical page that it has, if any.
#[derive(Clone, Copy)]
struct Entry(u16, u32, Option<u32>);

// Whether a translation to a physical page found room.
fn enters<T: Tlb>(table: &mut T, segment: u16, page: u32, physical: u32) -> bool {
    let page = Page {
        segment,
        number: page,
    };
    Info::parse(physical).is_some_and(|info| table.insert(Translation { page, info }).is_ok())
}

fn finds<T: Tlb>(rt: &impl Abort, table: &mut T, all: &[Entry]) {
    for entry in all {
        let page = Page {
            segment: entry.0,
            number: entry.1,
        };
        let physical = table.find(page).map(|info| info.physical());
        assert_eq!(rt; physical, entry.2);
    }
}

#[test]
fn pages_that_fold_to_one_line_are_told_apart(rt: HostRuntime) {
    let mut records = [None; 4];
    let mut table = QuickList::new(SlotList::new(&mut records));
    assert!(rt; enters(&mut table, 1, 0, 40));
    assert!(rt; enters(&mut table, 1, 16, 41));
    assert!(rt; enters(&mut table, 2, 15, 42));
    assert!(rt; enters(&mut table, 17, 0, 43));
    let all = [
        Entry(1, 0, Some(40)),
        Entry(1, 16, Some(41)),
        Entry(2, 15, Some(42)),
        Entry(17, 0, Some(43)),
        Entry(3, 14, None),
    ];
    finds(&rt, &mut table, &all);
    finds(&rt, &mut table, &all);
}

#[test]
fn lines_follow_the_table(rt: HostRuntime) {
    let mut records = [None; 2];
    let mut table = QuickList::new(SlotList::new(&mut records));
    assert!(rt; enters(&mut table, 1, 0, 40));
    assert!(rt; enters(&mut table, 1, 1, 41));
    finds(&rt, &mut table, &[Entry(1, 0, Some(40))]);
    assert!(rt; !enters(&mut table, 1, 16, 42));
    finds(
        &rt,
        &mut table,
        &[Entry(1, 0, Some(40)), Entry(1, 16, None)],
    );
    assert!(rt; enters(&mut table, 1, 0, 43));
    finds(&rt, &mut table, &[Entry(1, 0, Some(43))]);
    table.remove(Page {
        segment: 1,
        number: 0,
    });
    finds(&rt, &mut table, &[Entry(1, 0, None), Entry(1, 1, Some(41))]);
    table.clear();
    finds(&rt, &mut table, &[Entry(1, 1, None)]);
}
