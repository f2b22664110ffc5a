use durable::{Command, Core, Extent, Mount, PageAddr, Stamp};
use std::process::Abort;
use std::test::Fail;

// A page's version: of sectors from the first one on, how many, its number, and whether it is a trim.
type Page = Option<(u32, u32, u64, bool)>;

// The pages of 3 blocks, 2 of each, where a mount keeps the sectors 0 to 2, and the block that is free then.
type Row = ([Page; 6], [Option<(u32, u32)>; 3], u32);

const ROWS: [Row; 5] = [
    // Only trims are in block 0: it is free.
    (
        [
            Some((0, 1, 0, true)),
            Some((1, 1, 1, true)),
            Some((2, 1, 2, false)),
            None,
            Some((2, 1, 3, false)),
            None,
        ],
        [None, None, Some((2, 0))],
        0,
    ),
    // Sector 0 has an old value in block 1, so its trim is kept.
    (
        [
            Some((0, 1, 2, true)),
            Some((1, 1, 1, true)),
            Some((0, 1, 0, false)),
            None,
            Some((2, 1, 3, false)),
            None,
        ],
        [Some((0, 0)), None, Some((2, 0))],
        1,
    ),
    // The same, of a trim of all sectors.
    (
        [
            Some((0, 3, 2, true)),
            None,
            Some((1, 1, 0, false)),
            None,
            Some((2, 1, 3, false)),
            None,
        ],
        [None, Some((0, 0)), Some((2, 0))],
        1,
    ),
    // The old value is in the trim's own block.
    (
        [
            None,
            None,
            Some((0, 1, 0, false)),
            Some((0, 1, 1, true)),
            Some((2, 1, 3, false)),
            None,
        ],
        [Some((1, 1)), None, Some((2, 0))],
        0,
    ),
    // Nothing is told as a trim.
    (
        [
            None,
            None,
            Some((0, 1, 0, false)),
            Some((1, 1, 1, false)),
            Some((2, 1, 3, false)),
            None,
        ],
        [Some((1, 0)), Some((1, 1)), Some((2, 0))],
        0,
    ),
];

fn stamp(page: Page) -> Option<Stamp> {
    let (first, count, number, is_trim) = page?;
    Some(Stamp {
        extent: Extent { first, count },
        number,
        is_trim,
    })
}

fn mounted(rt: &(impl Abort + AllocGlobal), pages: [Page; 6]) -> Option<Core> {
    let Ok(mut mount) = Mount::begin(rt.alloc(), 3, 2, 3) else {
        return None;
    };
    for page in pages {
        if mount.next_page().is_none() || mount.note(stamp(page)).is_err() {
            return None;
        }
    }
    if mount.next_page().is_some() {
        return None;
    }
    mount.finish(rt.alloc()).ok()
}

fn check_row(rt: &(impl Abort + AllocGlobal), row: Row) {
    let (pages, kept, free) = row;
    let Some(core) = mounted(rt, pages) else {
        assert!(rt; false, "it is not mounted");
        return;
    };
    assert!(rt; core.sectors() == 3);
    for (sector, place) in kept.into_iter().enumerate() {
        let page = core.page(sector as u32);
        let expected = place.map(|(block, page)| PageAddr { block, page });
        assert!(rt; page == expected, "{:?}", (sector, page));
    }
    let next = core.next(Extent { first: 0, count: 1 });
    assert!(rt; next == Command::Erase(free), "{next:?}");
}

#[test]
fn a_mount_keeps_the_trims_that_hide_values(rt: HostRuntime) -> Result<(), Fail> {
    for row in ROWS {
        check_row(&rt, row);
    }
    Ok(())
}
