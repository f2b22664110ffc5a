//! Each call of a pass that plays lines, and of a broom with its queue, asks its gate at exactly these points, in this order.
ghost use Rattle.std.specs.Prelude.{All};
ghost use Rattle.answers.specs.Answers.{IsPlayable};
ghost use Rattle.flash_table.specs.Flash.{geometry_of};
ghost use Rattle.host.specs.Ready.{IsReady};
ghost use Rattle.volume.specs.Volume.{IsBroomReady, IsBroomReady-prop, flash_of};

use super::opening::{only_broom, only_pass};
use super::recorder::Recorder;
use answers::read_commands;
use broom::{Broom, Drain, Erase};
use flash_table::Point::{
    AfterLook, AfterPin, Answered, BeforeClaim, BeforeErase, BeforeMove, BeforePlace,
};
use flash_table::{Pass, Point};
use geometry::Geometry;
use rounds::{Answer, Kind};
use std::process::Abort;
use std::sync::Wait;
use std::test::Fail;
use trace::{Commands, Op, Watched};
use volume::Volume;
use workers::play;

// A pass that plays lines.
struct Player<'a> {
    volume: &'a Volume,
    pass: Pass,
    commands: Commands,
    ghost ready: { IsReady (flash_of volume.now) pass },
    ghost playable: { All (IsPlayable (geometry_of (flash_of volume.now))) commands },
}

impl Player<'_> {
    // Plays the line at an index, if it isn't a meeting. Returns its answer, and the points at which it stopped.
    fn play(&mut self, rt: &impl AllocGlobal, index: usize) -> Result<(Kind, Recorder), Fail> {
        let mut gate = Recorder::new();
        let page = vec![in rt.alloc(); 0; self.volume.geometry().page_bytes()]?;
        let mut answers = [Answer {
            kind: Kind::Met,
            page,
        }];
        if index < self.commands.len() {
            let line = self.commands.command(index);
            if line.op != Op::Meet {
                play(
                    self.volume,
                    &mut self.pass,
                    &[line],
                    1,
                    &mut gate,
                    &mut answers,
                );
            }
        }
        Ok((answers[0].kind, gate))
    }
}

// The lines of the pass, each with its answer and the points of its gate. They fill the first two of the blocks, which have three pages each:
// in block 0 the pages of sectors 1 and 2 are live at the end, and in block 1 that of sector 3.
const TRACE: &[u8] =
    b"0,read,0,\n0,write,0,01\n0,write,1,02\n0,write,2,03\n0,read,1,\n0,write,0,04\n0,new,1,05\n0,new,3,06\n0,trim,0,\n";

const LINES: [(Kind, &[Point]); 9] = [
    (Kind::Empty, &[AfterLook, Answered]),
    (Kind::Empty, &[BeforePlace, Answered]),
    (Kind::Empty, &[BeforePlace, Answered]),
    (Kind::Empty, &[BeforePlace, Answered]),
    (Kind::Page, &[AfterLook, AfterPin, Answered]),
    (Kind::Written, &[BeforePlace, Answered]),
    (Kind::Written, &[BeforePlace, Answered]),
    (Kind::Empty, &[BeforePlace, Answered]),
    (Kind::Written, &[Answered]),
];

// A call of a broom with its queue.
#[derive(Clone, Copy, Debug)]
enum Call {
    Drain,
    DrainNext,
    DrainDead,
    Erase,
}

// Its answer.
#[derive(Clone, Copy, Debug, PartialEq, Eq)]
enum Done {
    Drained(Drain),
    Erased(Erase),
}

// A broom that makes calls.
struct Collector<'a> {
    volume: &'a Volume,
    broom: Broom,
    ghost ready: { IsBroomReady volume.now broom } by { Prim.hlevel IsBroomReady-prop },
}

impl Collector<'_> {
    fn call(&mut self, rt: &impl Wait, call: Call, gate: &mut Recorder) -> Done {
        match call {
            Call::Drain => Done::Drained(self.volume.drain_one(rt, &mut self.broom, gate)),
            Call::DrainNext => Done::Drained(self.volume.drain_next_one(rt, &mut self.broom, gate)),
            Call::DrainDead => Done::Drained(self.volume.drain_dead_one(rt, &mut self.broom, gate)),
            Call::Erase => Done::Erased(self.volume.erase_one(rt, &mut self.broom, gate)),
        }
    }
}

// The calls of the broom, each with its answer and the points of its gate. The first drain copies into its spare, and the second
// one into the same block, which is then full.
const CALLS: [(Call, Done, &[Point]); 9] = [
    (Call::DrainNext, Done::Drained(Drain::NothingToGain), &[]),
    (Call::DrainDead, Done::Drained(Drain::NoSpare), &[]),
    (
        Call::Drain,
        Done::Drained(Drain::Drained {
            block: 1,
            copied: 1,
        }),
        &[BeforeClaim, BeforeMove],
    ),
    (Call::DrainNext, Done::Drained(Drain::NoSpare), &[]),
    (
        Call::Erase,
        Done::Erased(Erase::Erased {
            block: 1,
            kept: true,
        }),
        &[BeforeErase],
    ),
    (
        Call::DrainNext,
        Done::Drained(Drain::Drained {
            block: 0,
            copied: 2,
        }),
        &[BeforeClaim, BeforeMove, BeforeMove],
    ),
    (
        Call::Erase,
        Done::Erased(Erase::Erased {
            block: 0,
            kept: false,
        }),
        &[BeforeErase],
    ),
    (Call::Erase, Done::Erased(Erase::QueueEmpty), &[]),
    (Call::Drain, Done::Drained(Drain::NothingToGain), &[]),
];

// Plays all lines.
fn check_lines(rt: &(impl Abort + AllocGlobal), player: &mut Player<'_>) -> Result<(), Fail> {
    for index in 0..LINES.len() {
        let (kind, points) = LINES[index];
        let (found, gate) = player.play(rt, index)?;
        let is_right = found == kind && gate.is(points);
        assert!(rt; is_right, "{:?}", (index, found, gate));
    }
    Ok(())
}

// Makes all calls of the broom.
fn check_calls(rt: &(impl Abort + Wait), collector: &mut Collector<'_>) {
    for (call, done, points) in CALLS {
        let mut gate = Recorder::new();
        let found = collector.call(rt, call, &mut gate);
        let is_right = found == done && gate.is(points);
        assert!(rt; is_right, "{:?}", (call, found, gate));
    }
}

#[test]
fn each_call_asks_its_gate_at_these_points(rt: HostRuntime) -> Result<(), Fail> {
    let geometry = Geometry::new(1, 8, 3, 1, 4, 10, 1, 1)?;
    let commands = read_commands(rt.alloc(), &mut Watched::new(TRACE), &geometry)?;
    let (volume, passes, brooms) = Volume::open(rt.alloc(), &geometry)?;
    let mut player = Player {
        volume: &volume,
        pass: only_pass(&volume, passes),
        commands,
    };
    let mut collector = Collector {
        volume: &volume,
        broom: only_broom(&volume, brooms),
    };
    let checked = check_lines(&rt, &mut player);
    check_calls(&rt, &mut collector);
    let Player {
        volume,
        pass,
        commands: _,
    } = player;
    volume.retire(pass);
    let Collector { volume, broom } = collector;
    volume.fold(&rt, broom);
    checked
}
