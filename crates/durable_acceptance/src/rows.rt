use crate::bench::{Call, chip, make, open, power_on, read};
use nand::{Change, Chip, Cut, Durable, Extent, Failure, Nand, PageAddr, Reading, Shape};
use std::process::Abort;
use std::test::Fail;

// 3 blocks of 2 pages, 3 sectors. The first four writes fill blocks 0 and 1 by the commands 0 to 5. The fifth writes sector 1 again:
// command 6 erases block 2, command 7 copies sector 1 from block 0 to page 0 of block 2, and command 8 programs page 1.
const WRITES: [(u32, u8); 5] = [(0, 1), (1, 2), (2, 3), (0, 4), (1, 5)];

// Where the power goes, and what sector 1 holds afterwards.
const ROWS: [(u64, Cut, u8); 9] = [
    (6, Cut::Nothing, 2),
    (6, Cut::Part(0x6), 2),
    (6, Cut::Whole, 2),
    (7, Cut::Nothing, 2),
    (7, Cut::Part(0), 2),
    (7, Cut::Whole, 2),
    (8, Cut::Nothing, 2),
    (8, Cut::Part(0), 2),
    (8, Cut::Whole, 5),
];

fn check_row(
    rt: &(impl Abort + AllocGlobal),
    command: u64,
    cut: Cut,
    holds: u8,
) -> Result<(), Fail> {
    let mut chip = chip(rt.alloc(), 3, 2)?;
    chip.cut_at(command, cut);
    let Some(mut layer) = open(rt, chip, 3) else {
        return Ok(());
    };
    for (i, (sector, byte)) in WRITES.iter().enumerate() {
        let done = make(rt, &mut layer, Call::Write(*sector, *byte), None);
        assert!(rt; done.is_ok() == (i < 4), "{:?}", (command, cut, i));
        assert!(rt; done.is_ok() || done == Err(Failure::PowerGone), "{done:?}");
    }
    let chip = power_on(rt, layer.into_nand(), 3);
    let commands = chip.commands();
    assert!(rt; commands == command.wrapping_add(1), "{commands}");
    let Some(mut layer) = open(rt, chip, 3) else {
        return Ok(());
    };
    let found = (
        read(rt, &mut layer, 0),
        read(rt, &mut layer, 1),
        read(rt, &mut layer, 2),
    );
    assert!(rt;
        found == (Ok(Some(4)), Ok(Some(holds)), Ok(Some(3))),
        "{command:?} {cut:?} {found:?}"
    );
    Ok(())
}

#[test]
fn each_cut_of_a_write_that_collects(rt: HostRuntime) -> Result<(), Fail> {
    for (command, cut, holds) in ROWS {
        assert!(rt; command < 9);
        check_row(&rt, command, cut, holds)?;
    }
    Ok(())
}

// The same writes, and a refused one: what the sector held, and how many programs, copies and erases were counted after the call.
const TALLIES: [(Call, Option<u8>, (u64, u64, u64)); 6] = [
    (Call::Write(0, 1), None, (1, 0, 1)),
    (Call::Write(1, 2), None, (2, 0, 1)),
    (Call::Write(2, 3), None, (3, 0, 2)),
    (Call::Write(0, 4), Some(1), (4, 0, 2)),
    (Call::Write(1, 5), Some(2), (5, 1, 3)),
    (Call::WriteNew(1, 6), Some(5), (5, 1, 3)),
];

#[test]
fn each_write_counts_its_commands(rt: HostRuntime) -> Result<(), Fail> {
    let Some(mut layer) = open(&rt, chip(rt.alloc(), 3, 2)?, 3) else {
        return Ok(());
    };
    for (call, held, counted) in TALLIES {
        assert!(rt; make(&rt, &mut layer, call, held).is_ok(), "{call:?}");
        let tally = layer.tally();
        assert!(rt;
            (tally.programs, tally.copies, tally.erases) == counted,
            "{call:?} {tally:?}"
        );
    }
    Ok(())
}

// A program that fails is a power cut: it leaves a torn page, and the chip is opened again.
#[test]
fn a_command_that_fails_loses_nothing(rt: HostRuntime) -> Result<(), Fail> {
    for command in 0..9 {
        let mut chip = chip(rt.alloc(), 3, 2)?;
        chip.fail_at(command);
        let Some(mut layer) = open(&rt, chip, 3) else {
            return Ok(());
        };
        let mut failures = 0u64;
        for (sector, byte) in WRITES {
            let mut done = make(&rt, &mut layer, Call::Write(sector, byte), None);
            if done == Err(Failure::Failed) {
                failures = failures.wrapping_add(1);
                let Some(again) = open(&rt, layer.into_nand(), 3) else {
                    return Ok(());
                };
                layer = again;
                done = make(&rt, &mut layer, Call::Write(sector, byte), None);
            }
            assert!(rt; done.is_ok(), "{:?}", (command, sector, done));
        }
        let found = (
            read(&rt, &mut layer, 0),
            read(&rt, &mut layer, 1),
            read(&rt, &mut layer, 2),
        );
        assert!(rt;
            found == (Ok(Some(4)), Ok(Some(5)), Ok(Some(3))),
            "{command:?} {found:?}"
        );
        assert!(rt; failures == 1, "{:?}", (command, failures));
        assert!(rt; layer.into_nand().violations() == 0);
    }
    Ok(())
}

// The program of the first write fails, so that it isn't acknowledged; the calls after it are.
#[test]
fn a_list_of_calls_goes_on_after_a_failure(rt: HostRuntime) -> Result<(), Fail> {
    let mut nand = Chip::new(
        rt.alloc(),
        Shape {
            blocks: 3,
            pages: 2,
            page_bytes: 1,
            spare_blocks: 1,
        },
    )?;
    nand.fail_at(1);
    let changes = [
        Change::Write(0, vec![in rt.alloc(); 7; 1]?),
        Change::Write(1, vec![in rt.alloc(); 8; 1]?),
        Change::Trim(Extent { first: 0, count: 2 }),
        Change::Write(2, vec![in rt.alloc(); 9; 1]?),
    ];
    let mut acknowledged = Vec::new(rt.alloc());
    match Durable::make_all(rt.alloc(), nand, 3, &changes, &mut acknowledged) {
        Ok(mut layer) => {
            assert!(rt; acknowledged.as_slice() == [false, true, true, true].as_slice());
            assert!(rt; read(&rt, &mut layer, 0) == Ok(None));
            assert!(rt; read(&rt, &mut layer, 1) == Ok(None));
            assert!(rt; read(&rt, &mut layer, 2) == Ok(Some(9)));
        }
        Err(refused) => assert!(rt; false, "{:?}", refused.why),
    }
    Ok(())
}

#[test]
fn a_chip_keeps_its_bad_marks_and_counts_its_erases(rt: HostRuntime) -> Result<(), Fail> {
    let mut nand = chip(rt.alloc(), 3, 2)?;
    assert!(rt; nand.shape().blocks == 3);
    assert!(rt; nand.mark_bad(1).is_ok());
    assert!(rt; nand.is_bad(1) == Ok(true));
    assert!(rt; nand.is_bad(0) == Ok(false));
    assert!(rt; nand.erase(0).is_ok() && nand.erase(0).is_ok());
    assert!(rt; nand.erases(0) == 2);
    assert!(rt; nand.erases(1) == 0);
    Ok(())
}

#[test]
fn a_page_that_is_lost_cannot_be_read(rt: HostRuntime) -> Result<(), Fail> {
    let Some(mut layer) = open(&rt, chip(rt.alloc(), 3, 2)?, 3) else {
        return Ok(());
    };
    assert!(rt; make(&rt, &mut layer, Call::Write(0, 1), None).is_ok());
    assert!(rt; make(&rt, &mut layer, Call::Write(0, 2), None).is_ok());
    let mut nand = layer.into_nand();
    let at = PageAddr { block: 0, page: 1 };
    nand.lose_page(at);
    assert!(rt; nand.stamp(at) == Ok(Reading::Unreadable));
    Ok(())
}

#[test]
fn a_trim_of_many_sectors_programs_one_page(rt: HostRuntime) -> Result<(), Fail> {
    let Some(mut layer) = open(&rt, chip(rt.alloc(), 8, 16)?, 64) else {
        return Ok(());
    };
    for sector in 0..64 {
        let written = make(&rt, &mut layer, Call::Write(sector, 7), None);
        assert!(rt; written.is_ok(), "{sector:?}");
    }
    let most = Extent {
        first: 1,
        count: 62,
    };
    let programmed = layer.into_nand();
    let before = programmed.commands();
    let Some(mut layer) = open(&rt, programmed, 64) else {
        return Ok(());
    };
    assert!(rt; make(&rt, &mut layer, Call::Trim(most), Some(7)).is_ok());
    assert!(rt; make(&rt, &mut layer, Call::Trim(most), None).is_ok());
    let trimmed = layer.into_nand();
    // The erase that opens a block, and one program.
    assert!(rt; trimmed.commands() == before.wrapping_add(2));
    let Some(mut layer) = open(&rt, trimmed, 64) else {
        return Ok(());
    };
    for sector in 0..64 {
        let held = (sector == 0 || sector == 63).then_some(7);
        assert!(rt; read(&rt, &mut layer, sector) == Ok(held), "{sector:?}");
    }
    Ok(())
}

// Writes four sectors in order, 90 times, each time into a new block.
fn fill(rt: &impl Abort, layer: &mut Durable<Chip>) {
    for round in 0..90u8 {
        for sector in 0..4 {
            let written = make(rt, layer, Call::Write(sector, round), None);
            assert!(rt; written.is_ok(), "{:?}", (round, sector));
        }
    }
}

// Ten blocks of four pages, of which one is in reserve: each of the nine is erased some ten times.
#[test]
fn free_blocks_are_erased_in_turn(rt: HostRuntime) -> Result<(), Fail> {
    let Some(mut layer) = open(&rt, chip(rt.alloc(), 10, 4)?, 4) else {
        return Ok(());
    };
    fill(&rt, &mut layer);
    let chip = layer.into_nand();
    assert!(rt; chip.erases(9) == 0);
    for block in 0..9 {
        let erases = chip.erases(block);
        assert!(rt; erases >= 7 && erases <= 13, "{:?}", (block, erases));
    }
    Ok(())
}

// The same, but one of the nine was erased often before the open, and one is bad.
#[test]
fn a_block_that_was_erased_often_rests(rt: HostRuntime) -> Result<(), Fail> {
    let mut worn = chip(rt.alloc(), 11, 4)?;
    assert!(rt; worn.mark_bad(0).is_ok());
    let Some(mut layer) = open(&rt, worn, 4) else {
        return Ok(());
    };
    layer.erased_before(&[0, 0, 0, 1000]);
    fill(&rt, &mut layer);
    let chip = layer.into_nand();
    for block in 1..10 {
        let erases = chip.erases(block);
        let rests = erases == 0 && block == 3;
        assert!(rt; rests || erases >= 7 && block != 3, "{:?}", (block, erases));
    }
    Ok(())
}

// Block 0 is bad: the blocks in use tell the sectors whose pages they have.
#[test]
fn each_block_tells_its_live_sectors(rt: HostRuntime) -> Result<(), Fail> {
    let mut worn = chip(rt.alloc(), 6, 2)?;
    assert!(rt; worn.mark_bad(0).is_ok());
    let Some(mut layer) = open(&rt, worn, 3) else {
        return Ok(());
    };
    for (sector, byte) in [(0, 1), (1, 2), (2, 3), (0, 4)] {
        assert!(rt; make(&rt, &mut layer, Call::Write(sector, byte), None).is_ok());
    }
    let mut unused = 0u32;
    let mut live = 0u32;
    for block in 0..6 {
        match layer.live(block) {
            Some(count) => live = live.saturating_add(count),
            None => unused = unused.saturating_add(1),
        }
    }
    assert!(rt; layer.live(0).is_none() && layer.live(6).is_none());
    let spared = layer.reserve().saturating_add(1);
    assert!(rt; live == 3 && unused == spared, "{:?}", (live, unused));
    Ok(())
}

// Block 0 has lost its first page, whose sector has a newer one, so the open tells a loss. The erase of block 2 fails then: the call goes on, and tells
// no loss more.
#[test]
fn a_loss_that_was_told_stops_no_call(rt: HostRuntime) -> Result<(), Fail> {
    let Some(mut layer) = open(&rt, chip(rt.alloc(), 6, 2)?, 3) else {
        return Ok(());
    };
    assert!(rt; layer.reserve() == 1 && layer.losses() == 0);
    for (sector, byte) in [(0, 1), (1, 2), (2, 3), (0, 4)] {
        assert!(rt; make(&rt, &mut layer, Call::Write(sector, byte), None).is_ok());
    }
    let mut nand = layer.into_nand();
    nand.lose_page(PageAddr { block: 0, page: 0 });
    nand.fail_at(nand.commands());
    let Some(mut layer) = open(&rt, nand, 3) else {
        return Ok(());
    };
    assert!(rt; layer.losses() == 1);
    assert!(rt; make(&rt, &mut layer, Call::Write(1, 5), None).is_ok());
    assert!(rt; layer.losses() == 1 && layer.reserve() == 0);
    assert!(rt; read(&rt, &mut layer, 0) == Ok(Some(4)));
    assert!(rt; read(&rt, &mut layer, 1) == Ok(Some(5)));
    Ok(())
}
