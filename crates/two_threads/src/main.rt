//! Opens a shared device. Two threads write a sector each while a broom collects in a third; then the two meet, and one of them reads both.
#![tactic(auto)]

ghost use Rattle.std.specs.Prelude.{◌≡◌, ◌<◌, ◌+◌, All, length};
ghost use Rattle.host.specs.Ready.{IsReady};
ghost use Rattle.volume.specs.Volume.{IsBroomReady, flash_of, sectors, page_bytes};

use std::thread::Threads;
use uses::{Sweeper, Writer, two_writers_and_a_broom};
use volume::{Broom, DeviceNumbers, Geometry, Got, Pass, Volume};

fn main(rt: HostRuntime) -> anyhow::Result<()> {
    let geometry = Geometry::of(DeviceNumbers {
        luns: 1,
        blocks: 64,
        pages: 64,
        words: 1,
        sectors: 3072,
        endurance: 1000,
        hosts: 2,
        brooms: 1,
    })?;
    let (volume, passes, brooms) = Volume::open(rt.alloc(), &geometry)?;
    let (written, held) = share(&rt, &volume, passes, brooms);
    println!(rt; "written: {written:?}; the sectors hold {held:?}")?;
    Ok(())
}

type Written = (bool, bool);

type Sectors = (Option<[u8; 8]>, Option<[u8; 8]>);

// Two threads write sectors 0 and 1 while a broom collects, and then meet: whether each wrote, and what the sectors hold.
fn share<R: Threads + Sync>(
    rt: &R,
    volume: &Volume,
    passes: Vec<Pass>,
    brooms: Vec<Broom>,
) -> (Written, Sectors)
    requires passes { All (IsReady (flash_of volume.now)) passes.items }
    requires two { length passes.items ≡ 2 }
    requires brooms { All (IsBroomReady volume.now) brooms.items }
    requires one { length brooms.items ≡ 1 }
    requires sectors { 1 < sectors volume.now }
    requires page { page_bytes volume.now ≡ 8 }
{
    let (mut passes, mut brooms) = (passes, brooms);
    let mut second = writer(volume, &mut passes, 1, b"Another!");
    let mut first = writer(volume, &mut passes, 0, b"A sector");
    let mut sweeper = sweeper(volume, &mut brooms);
    passes.destroy_empty();
    brooms.destroy_empty();
    let written = two_writers_and_a_broom(rt, &mut first, &mut second, &mut sweeper);
    let held = (look(&mut first, 0), look(&mut first, 1));
    let Sweeper { volume, broom } = sweeper;
    volume.retire_broom(broom);
    give_up(first);
    give_up(second);
    (written, held)
}

// The writer that takes the last pass.
fn writer<'a>(
    volume: &'a Volume,
    passes: &mut Vec<Pass>,
    sector: u32,
    value: &'a [u8],
) -> Writer<'a>
    requires ready { All (IsReady (flash_of volume.now)) passes.old.items }
    requires count { 0 < length passes.old.items }
    requires sector { sector < sectors volume.now }
    requires value { length value.now ≡ page_bytes volume.now }
    ensures volume { result.volume.now ≡ volume.now }
    ensures ready { All (IsReady (flash_of volume.now)) passes.new.items }
    ensures count { length passes.old.items ≡ length passes.new.items + 1 }
{
    let Some(pass) = passes.pop() else {
        unreachable!()
    };
    Writer {
        volume,
        pass,
        sector,
        value,
    }
}

// The sweeper that takes the last broom.
fn sweeper<'a>(volume: &'a Volume, brooms: &mut Vec<Broom>) -> Sweeper<'a>
    requires ready { All (IsBroomReady volume.now) brooms.old.items }
    requires count { 0 < length brooms.old.items }
    ensures count { length brooms.old.items ≡ length brooms.new.items + 1 }
{
    let Some(broom) = brooms.pop() else {
        unreachable!()
    };
    Sweeper { volume, broom }
}

// What a sector holds, if it is there, is written, and has eight bytes.
fn look(writer: &mut Writer, sector: u32) -> Option<[u8; 8]> {
    let volume = writer.volume;
    let mut page = [0; 8];
    if sector >= volume.geometry().sectors() || volume.geometry().page_bytes() != page.len() {
        return None;
    }
    match volume.read(&mut writer.pass, sector, &mut page).got {
        Got::Data => Some(page),
        Got::Empty => None,
    }
}

// Retires a writer's pass, which may not be dropped.
fn give_up(writer: Writer) {
    let Writer {
        volume,
        pass,
        sector: _,
        value: _,
    } = writer;
    volume.retire(pass);
}
