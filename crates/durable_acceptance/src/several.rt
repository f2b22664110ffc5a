// Several commands of one call fail, and the power goes in one of them or in none.
use crate::bench::{Call, chip, make, marked, open, power_on, read};
use nand::{Chip, Cut, Durable, Extent, Failure};
use std::process::Abort;
use std::test::Fail;

// 100 blocks of 2 pages: 97 are in use, and 3 are in reserve. With as many sectors as fit, all of them written, a call erases a block,
// copies the live page of another, and programs.
const BLOCKS: u32 = 100;

const SECTORS: u32 = 191;

const RESERVE: u32 = 3;

fn byte_of(sector: u32) -> u8 {
    (sector % 251) as u8
}

fn full(rt: &(impl Abort + AllocGlobal)) -> Result<Option<Durable<Chip>>, Fail> {
    let Some(mut layer) = open(rt, chip(rt.alloc(), BLOCKS, 2)?, SECTORS) else {
        return Ok(None);
    };
    for sector in 0..SECTORS {
        let done = make(rt, &mut layer, Call::Write(sector, byte_of(sector)), None);
        assert!(rt; done.is_ok(), "{:?}", (sector, done));
    }
    Ok(Some(layer))
}

// Whether each sector holds what it held before the call, and whether each holds what it holds after it.
fn holds(rt: &impl Abort, layer: &mut Durable<Chip>, call: Call) -> (bool, bool) {
    let mut before = true;
    let mut after = true;
    for sector in 0..SECTORS {
        let held = Some(byte_of(sector));
        let then = if call.extent().covers(sector) {
            call.value(held)
        } else {
            held
        };
        let found = read(rt, layer, sector);
        before &= found == Ok(held);
        after &= found == Ok(then);
    }
    (before, after)
}

// The commands of a call that fail, by a mask, and the one in which the power goes, if there are so many.
#[derive(Clone, Copy, Debug)]
struct Harm {
    mask: u64,
    cut: Option<(u64, Cut)>,
}

impl Harm {
    fn put(self, chip: &mut Chip) -> u64 {
        let first = chip.commands();
        chip.fail_from(first, self.mask);
        if let Some((command, cut)) = self.cut {
            chip.cut_at(first.wrapping_add(command), cut);
        }
        first
    }

    // What comes of a call that gave so many commands, and how many of them have failed.
    fn outcome(self, ran: u64) -> (Result<(), Failure>, u32) {
        let cut = self.cut.is_some_and(|(command, _)| command < ran);
        let whole = if cut { ran.saturating_sub(1) } else { ran };
        let mut failed = 0u32;
        for command in 0..whole.min(64) {
            if (self.mask >> command) & 1 == 1 {
                failed = failed.wrapping_add(1);
            }
        }
        if cut {
            (Err(Failure::PowerGone), failed)
        } else if failed > RESERVE {
            (Err(Failure::Failed), failed)
        } else {
            (Ok(()), failed)
        }
    }
}

// One call on a full device. A call that is acknowledged is done, and of another all is done or nothing. As many blocks are marked as
// commands have failed, while there is a reserve. Then the chip opens again, and goes on.
fn play(
    rt: &(impl Abort + AllocGlobal),
    call: Call,
    harm: Harm,
) -> Result<Option<(Result<(), Failure>, u32)>, Fail> {
    let Some(layer) = full(rt)? else {
        return Ok(None);
    };
    let mut nand = layer.into_nand();
    let first = harm.put(&mut nand);
    let Some(mut layer) = open(rt, nand, SECTORS) else {
        return Ok(None);
    };
    let done = make(rt, &mut layer, call, Some(0));
    let mut nand = layer.into_nand();
    let (wanted, failed) = harm.outcome(nand.commands().wrapping_sub(first));
    assert!(rt; done == wanted, "{:?}", (call, harm, done, wanted));
    if done == Err(Failure::PowerGone) {
        nand = power_on(rt, nand, SECTORS);
    }
    let marks = failed.min(RESERVE);
    assert!(rt; marked(rt, &mut nand) == marks, "{:?}", (call, harm, marks));
    // No more harm: the commands of these numbers are past.
    nand.fail_from(first, 0);
    nand.cut_at(first, Cut::Nothing);
    let Some(mut layer) = open(rt, nand, SECTORS) else {
        return Ok(None);
    };
    let reserve = layer.reserve();
    assert!(rt; reserve == RESERVE - marks, "{:?}", (call, harm, reserve));
    let (before, after) = holds(rt, &mut layer, call);
    assert!(rt;
        after || (before && done.is_err()),
        "{call:?} {harm:?} {before:?} {after:?}"
    );
    let more = make(rt, &mut layer, Call::Write(7, 252), Some(7));
    assert!(rt; more.is_ok(), "{:?}", (call, harm, more));
    let written = read(rt, &mut layer, 7);
    assert!(rt; written == Ok(Some(252)), "{:?}", (call, harm, written));
    assert!(rt; layer.into_nand().violations() == 0);
    Ok(Some((done, failed)))
}

fn calls() -> [Call; 2] {
    let first = Extent {
        first: 40,
        count: 3,
    };
    [Call::Write(5, 251), Call::Trim(first)]
}

// Each choice of the first eight commands of a call fails: up to three are replaced, and the fourth is told.
#[test]
fn each_choice_of_failures_in_one_call(rt: HostRuntime) -> Result<(), Fail> {
    for call in calls() {
        let mut most = [0u32; 5];
        for mask in 0..256u64 {
            let Some((done, failed)) = play(&rt, call, Harm { mask, cut: None })? else {
                return Ok(());
            };
            assert!(rt; done.is_ok() == (failed < 4), "{:?}", (call, mask, failed));
            assert!(rt; failed < 5);
            most[failed as usize] = most[failed as usize].wrapping_add(1);
        }
        assert!(rt; most.iter().all(|count| *count > 0), "{:?}", (call, most));
    }
    Ok(())
}

// The power goes in each command of such a call.
#[test]
fn a_cut_among_failures_of_one_call(rt: HostRuntime) -> Result<(), Fail> {
    for call in calls() {
        for mask in 0..32u64 {
            for command in 0..8u64 {
                for cut in [Cut::Nothing, Cut::Part(0b110), Cut::Whole] {
                    let harm = Harm {
                        mask,
                        cut: Some((command, cut)),
                    };
                    if play(&rt, call, harm)?.is_none() {
                        return Ok(());
                    }
                }
            }
        }
    }
    Ok(())
}
