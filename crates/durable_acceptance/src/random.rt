ghost use Rattle.std.specs.Prelude.{◌≤◌};

use crate::bench::{Call, SECTORS, chip, make, open, power_on, read};
use nand::{Chip, Cut, Durable, Extent, Failure, Shape};
use std::process::Abort;
use std::test::Fail;

// A linear congruential generator: a run is the same each time.
#[derive(Drop)]
pub(crate) struct Random(u64);

impl Random {
    // At most the bound.
    pub(crate) fn below(&mut self, bound: u64) -> u64
        ensures { result ≤ bound }
    {
        self.0 = self
            .0
            .wrapping_mul(6364136223846793005)
            .wrapping_add(1442695040888963407);
        if bound == 0 {
            return 0;
        }
        (self.0 >> 33) % bound
    }

    fn call(&mut self, sectors: u32) -> Call {
        let sector = (self.below(u64::from(sectors)) % 4294967296) as u32;
        let byte = (self.below(255) % 256) as u8;
        match self.below(8) {
            0 => Call::Trim(self.extent(sector, sectors)),
            1 => Call::WriteNew(sector, byte),
            _ => Call::Write(sector, byte),
        }
    }

    // Up to four sectors from this one on.
    fn extent(&mut self, first: u32, sectors: u32) -> Extent {
        let most = u64::from(sectors.saturating_sub(first)).min(4);
        Extent {
            first,
            count: (self.below(most) % 4) as u32 + 1,
        }
    }

    pub(crate) fn cut(&mut self) -> Cut {
        match self.below(4) {
            0 => Cut::Nothing,
            1 => Cut::Whole,
            _ => Cut::Part(self.below(1 << 32)),
        }
    }
}

// A layer whose chip loses its power, and the array that it has to hold.
#[derive(Drop)]
pub(crate) struct Run {
    pub(crate) sectors: u32,
    shadow: [Option<u8>; SECTORS],
    pub(crate) random: Random,
    pub(crate) calls: u64,
    cuts: u64,
}

impl Run {
    fn held(&self, sector: u32) -> Option<u8> {
        self.shadow.get(sector as usize).copied().flatten()
    }

    // What a sector of the call holds that is written, or nothing if none of them is.
    fn held_by(&self, call: Call) -> Option<u8> {
        for sector in 0..self.sectors {
            if call.extent().covers(sector) && self.held(sector).is_some() {
                return self.held(sector);
            }
        }
        None
    }

    // What a sector holds after a call.
    fn after(&self, call: Call, sector: u32) -> Option<u8> {
        if call.extent().covers(sector) {
            call.value(self.held(sector))
        } else {
            self.held(sector)
        }
    }

    fn note(&mut self, call: Call) {
        for sector in 0..SECTORS {
            self.shadow[sector] = self.after(call, sector as u32);
        }
    }

    // The sectors have to hold what was acknowledged; those of a call that was cut short may all hold its value already.
    pub(crate) fn check(
        &mut self,
        rt: &impl Abort,
        layer: &mut Durable<Chip>,
        cut_short: Option<Call>,
    ) {
        let mut before = true;
        let mut after = true;
        for sector in 0..self.sectors {
            let found = read(rt, layer, sector);
            before &= found == Ok(self.held(sector));
            after &= cut_short.is_some_and(|call| found == Ok(self.after(call, sector)));
        }
        assert!(rt; before || after, "{:?}", (self.calls, cut_short));
        if let (true, Some(call)) = (after, cut_short) {
            self.note(call);
        }
    }

    // Makes calls until the power goes, or until there were so many.
    fn until_cut(&mut self, rt: &impl Abort, layer: &mut Durable<Chip>, most: u64) -> Option<Call> {
        match self.until_failure(layer, rt, most) {
            Some((call, failure)) => {
                assert!(rt;
                    failure == Failure::PowerGone,
                    "{:?}",
                    (self.calls, failure)
                );
                Some(call)
            }
            None => None,
        }
    }

    /// Makes calls until one fails, or until there were so many.
    pub(crate) fn until_failure(
        &mut self,
        layer: &mut Durable<Chip>,
        rt: &impl Abort,
        most: u64,
    ) -> Option<(Call, Failure)> {
        for _ in 0..most {
            let call = self.random.call(self.sectors);
            let held = self.held_by(call);
            self.calls = self.calls.wrapping_add(1);
            match make(rt, layer, call, held) {
                Ok(()) => self.note(call),
                Err(failure) => return Some((call, failure)),
            }
        }
        None
    }
}

pub(crate) fn start(sectors: u32, seed: u64) -> Run {
    Run {
        sectors,
        shadow: [None; SECTORS],
        random: Random(seed),
        calls: 0,
        cuts: 0,
    }
}

// One run: cuts at random, each followed by a mount that first finds no power.
fn play(rt: &(impl Abort + AllocGlobal), mut run: Run, mut chip: Chip, calls: u64) {
    for _ in 0..calls {
        if run.calls >= calls {
            break;
        }
        let commands = 1 + run.random.below(60);
        let cut = run.random.cut();
        chip.cut_at(chip.commands().wrapping_add(commands), cut);
        let Some(mut layer) = open(rt, chip, run.sectors) else {
            return;
        };
        run.check(rt, &mut layer, None);
        let cut_short = run.until_cut(rt, &mut layer, 200);
        chip = layer.into_nand();
        if cut_short.is_some() {
            run.cuts = run.cuts.wrapping_add(1);
            chip = power_on(rt, chip, run.sectors);
        }
        let Some(mut layer) = open(rt, chip, run.sectors) else {
            return;
        };
        run.check(rt, &mut layer, cut_short);
        chip = layer.into_nand();
    }
    assert!(rt; chip.violations() == 0, "{:?}", chip.violations());
    assert!(rt; run.cuts > calls / 200, "{:?}", (run.calls, run.cuts));
}

#[test]
fn a_cut_at_each_command_in_turn(rt: HostRuntime) -> Result<(), Fail> {
    for command in 0..120 {
        for kind in 0..4u64 {
            let mut run = start(3, command * 4 + kind);
            let mut chip = chip(rt.alloc(), 3, 2)?;
            let cut = run.random.cut();
            chip.cut_at(command, cut);
            let Some(mut layer) = open(&rt, chip, 3) else {
                return Ok(());
            };
            let cut_short = run.until_cut(&rt, &mut layer, 1000);
            assert!(rt; cut_short.is_some(), "{command:?}");
            let chip = power_on(&rt, layer.into_nand(), 3);
            let Some(mut layer) = open(&rt, chip, 3) else {
                return Ok(());
            };
            run.check(&rt, &mut layer, cut_short);
            let more = run.until_cut(&rt, &mut layer, 40);
            assert!(rt; more.is_none(), "{command:?}");
            run.check(&rt, &mut layer, None);
        }
    }
    Ok(())
}

#[test]
fn many_calls_with_cuts_at_random(rt: HostRuntime) -> Result<(), Fail> {
    play(&rt, start(3, 1), chip(rt.alloc(), 3, 2)?, 20_000);
    play(&rt, start(8, 2), chip(rt.alloc(), 4, 3)?, 20_000);
    play(&rt, start(15, 3), chip(rt.alloc(), 5, 4)?, 20_000);
    play(&rt, start(16, 4), chip(rt.alloc(), 8, 4)?, 20_000);
    Ok(())
}

#[test]
fn a_large_chip_is_opened(rt: HostRuntime) -> Result<(), Fail> {
    let chip = Chip::new(
        rt.alloc(),
        Shape {
            blocks: 1024,
            pages: 256,
            page_bytes: 1,
            spare_blocks: 20,
        },
    )?;
    let Some(mut layer) = open(&rt, chip, 200_000) else {
        return Ok(());
    };
    assert!(rt; make(&rt, &mut layer, Call::Write(199_999, 5), None).is_ok());
    let Some(mut layer) = open(&rt, layer.into_nand(), 200_000) else {
        return Ok(());
    };
    assert!(rt; read(&rt, &mut layer, 199_999) == Ok(Some(5)));
    assert!(rt; read(&rt, &mut layer, 0) == Ok(None));
    Ok(())
}
