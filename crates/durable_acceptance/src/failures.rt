use crate::bench::{Call, chip, make, marked, open, power_on, read};
use crate::random::{Run, start};
use nand::{Chip, Durable, Failure, Nand};
use std::process::Abort;
use std::test::Fail;

// 4 blocks of 2 pages, 3 sectors: three blocks are in use, and one is in reserve. Without a failure the commands 0 to 8 are those of
// the rows with three blocks.
const WRITES: [(u32, u8); 5] = [(0, 1), (1, 2), (2, 3), (0, 4), (1, 5)];

fn holds(rt: &impl Abort, layer: &mut Durable<Chip>, row: u64) {
    let found = (read(rt, layer, 0), read(rt, layer, 1), read(rt, layer, 2));
    assert!(rt;
        found == (Ok(Some(4)), Ok(Some(5)), Ok(Some(3))),
        "{row:?} {found:?}"
    );
}

// The caller sees no failure: the block is marked, and the one in reserve takes its place.
#[test]
fn each_command_fails_in_turn(rt: HostRuntime) -> Result<(), Fail> {
    for command in 0..9 {
        let mut nand = chip(rt.alloc(), 4, 2)?;
        nand.fail_at(command);
        let Some(mut layer) = open(&rt, nand, 3) else {
            return Ok(());
        };
        assert!(rt; layer.reserve() == 1, "{:?}", layer.reserve());
        for (sector, byte) in WRITES {
            let done = make(&rt, &mut layer, Call::Write(sector, byte), None);
            assert!(rt; done.is_ok(), "{:?}", (command, sector, done));
        }
        holds(&rt, &mut layer, command);
        assert!(rt; layer.reserve() == 0, "{:?}", (command, layer.reserve()));
        let mut nand = layer.into_nand();
        assert!(rt; marked(&rt, &mut nand) == 1, "{command:?}");
        assert!(rt; nand.violations() == 0);
        let Some(mut layer) = open(&rt, nand, 3) else {
            return Ok(());
        };
        holds(&rt, &mut layer, command);
        assert!(rt; layer.reserve() == 0, "{:?}", (command, layer.reserve()));
    }
    Ok(())
}

// Each failure takes one block of the reserve. With none left a failure is told, and no block is marked.
#[test]
fn one_failure_more_than_the_reserve_has(rt: HostRuntime) -> Result<(), Fail> {
    let mut nand = chip(rt.alloc(), 100, 2)?;
    for failure in 0..4u32 {
        nand.fail_at(nand.commands().wrapping_add(1));
        let Some(mut layer) = open(&rt, nand, 3) else {
            return Ok(());
        };
        let reserve = layer.reserve();
        assert!(rt;
            reserve == 3u32.saturating_sub(failure),
            "{:?}",
            (failure, reserve)
        );
        let done = make(&rt, &mut layer, Call::Write(failure % 3, 7), None);
        if failure < 3 {
            assert!(rt; done.is_ok(), "{:?}", (failure, done));
        } else {
            assert!(rt; done == Err(Failure::Failed), "{:?}", (failure, done));
            let next = make(&rt, &mut layer, Call::Write(1, 8), None);
            assert!(rt; next == Err(Failure::Closed), "{next:?}");
        }
        nand = layer.into_nand();
    }
    assert!(rt; marked(&rt, &mut nand) == 3);
    let Some(mut layer) = open(&rt, nand, 3) else {
        return Ok(());
    };
    for sector in 0..3 {
        let found = read(&rt, &mut layer, sector);
        assert!(rt; found == Ok(Some(7)), "{:?}", (sector, found));
    }
    let done = make(&rt, &mut layer, Call::Write(1, 8), None);
    assert!(rt; done.is_ok(), "{done:?}");
    Ok(())
}

// The power goes in the command after the one that has failed.
#[test]
fn a_cut_after_a_failure(rt: HostRuntime) -> Result<(), Fail> {
    for command in 0..9u64 {
        let mut nand = chip(rt.alloc(), 4, 2)?;
        nand.fail_at(command);
        nand.cut_at(command.wrapping_add(1), nand::Cut::Nothing);
        let Some(mut layer) = open(&rt, nand, 3) else {
            return Ok(());
        };
        for (sector, byte) in WRITES {
            let mut done = make(&rt, &mut layer, Call::Write(sector, byte), None);
            if done == Err(Failure::PowerGone) {
                let nand = power_on(&rt, layer.into_nand(), 3);
                let Some(again) = open(&rt, nand, 3) else {
                    return Ok(());
                };
                layer = again;
                done = make(&rt, &mut layer, Call::Write(sector, byte), None);
            }
            assert!(rt; done.is_ok(), "{:?}", (command, sector, done));
        }
        holds(&rt, &mut layer, command);
    }
    Ok(())
}

fn call_of(stopped: Option<(Call, Failure)>) -> Option<Call> {
    match stopped {
        Some((call, _)) => Some(call),
        None => None,
    }
}

// Failures and cuts at random, each followed by a check of all sectors.
fn play(rt: &(impl Abort + AllocGlobal), mut run: Run, mut chip: Chip, rounds: u64) {
    let most = chip.shape().blocks / 50 + 1;
    for _ in 0..rounds {
        let commands = 1 + run.random.below(60);
        chip.fail_at(chip.commands().wrapping_add(commands));
        if run.random.below(2) == 0 {
            let commands = 1 + run.random.below(60);
            let cut = run.random.cut();
            chip.cut_at(chip.commands().wrapping_add(commands), cut);
        }
        let Some(mut layer) = open(rt, chip, run.sectors) else {
            return;
        };
        run.check(rt, &mut layer, None);
        let before = layer.reserve();
        let stopped = run.until_failure(&mut layer, rt, 100);
        let reserve = layer.reserve();
        assert!(rt; reserve <= before, "{:?}", (run.calls, before, reserve));
        chip = layer.into_nand();
        if let Some((_, failure)) = stopped {
            if failure == Failure::PowerGone {
                chip = power_on(rt, chip, run.sectors);
            } else {
                let told = failure == Failure::Failed && reserve == 0;
                assert!(rt; told, "{:?}", (run.calls, failure, reserve));
            }
        }
        let Some(mut layer) = open(rt, chip, run.sectors) else {
            return;
        };
        run.check(rt, &mut layer, call_of(stopped));
        let left = layer.reserve();
        chip = layer.into_nand();
        let all = marked(rt, &mut chip).wrapping_add(left);
        assert!(rt; all == most, "{:?}", (all, left));
    }
    assert!(rt; chip.violations() == 0, "{:?}", chip.violations());
    assert!(rt; marked(rt, &mut chip) == most, "{most:?}");
}

#[test]
fn failures_and_cuts_at_random(rt: HostRuntime) -> Result<(), Fail> {
    play(&rt, start(3, 1), chip(rt.alloc(), 4, 2)?, 200);
    play(&rt, start(16, 2), chip(rt.alloc(), 8, 4)?, 200);
    play(&rt, start(16, 3), chip(rt.alloc(), 60, 2)?, 100);
    play(&rt, start(16, 4), chip(rt.alloc(), 200, 2)?, 100);
    Ok(())
}
