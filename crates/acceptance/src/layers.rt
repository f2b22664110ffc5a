ghost use Rattle.std.specs.Prelude.{◌≡◌};
ghost use Rattle.ftl_one.specs.OneFtl.{page_bytes};

use ftl_one::{NewOneFault, OneFtl};
use geometry::{Geometry, Got, Was};
use std::alloc::Global;
use std::process::Abort;
use std::test::Fail;

// A layer whose pages have one word. A page holds one byte, then zeros.
#[derive(Drop)]
struct SmallLayer {
    ftl: OneFtl,
    ghost bytes: { page_bytes ftl ≡ 8 },
}

impl SmallLayer {
    fn new(
        rt: &(impl Abort + AllocGlobal),
        luns: u32,
        blocks: u32,
        pages: u32,
        sectors: u32,
        endurance: u32,
    ) -> Result<SmallLayer, Fail> {
        let geometry = Geometry::new(luns, blocks, pages, 1, sectors, endurance, 0, 0)?;
        assert!(rt; (geometry.page_bytes(), geometry.hosts()) == (8, 0));
        Ok(SmallLayer {
            ftl: OneFtl::new(rt.alloc(), &geometry)?,
        })
    }

    // What the sector was, or nothing if the layer is worn out.
    fn write(&mut self, rt: &impl Abort, sector: u32, byte: u8) -> Option<Was> {
        assert!(rt; sector < self.ftl.geometry().sectors());
        self.ftl.write(sector, &[byte, 0, 0, 0, 0, 0, 0, 0]).ok()
    }

    fn write_new(&mut self, rt: &impl Abort, sector: u32, byte: u8) -> Result<(), NewOneFault> {
        assert!(rt; sector < self.ftl.geometry().sectors());
        self.ftl.write_new(sector, &[byte, 0, 0, 0, 0, 0, 0, 0])
    }

    fn trim(&mut self, rt: &impl Abort, sector: u32) -> Was {
        assert!(rt; sector < self.ftl.geometry().sectors());
        self.ftl.trim(sector)
    }

    // The sector's byte, if it is written: of the page that is lent, and of the one that is read.
    fn read(&self, rt: &impl Abort, sector: u32) -> Option<u8> {
        assert!(rt; sector < self.ftl.geometry().sectors());
        let mut page = [99; 8];
        let got = self.ftl.read(sector, &mut page);
        match self.ftl.page(sector) {
            None => {
                assert!(rt; (got, page) == (Got::Empty, [99; 8]));
                None
            }
            Some(lent) => {
                let byte = lent[0];
                assert!(rt; (got, page) == (Got::Data, [byte, 0, 0, 0, 0, 0, 0, 0]));
                Some(byte)
            }
        }
    }

    // A block's erases and live pages, and whether it is retired.
    fn wear(&self, rt: &impl Abort, block: u32) -> (u32, u32, bool) {
        assert!(rt; block < self.ftl.geometry().blocks());
        (
            self.ftl.erases(block),
            self.ftl.live(block),
            self.ftl.retired(block),
        )
    }
}

// A device with blocks of two pages and three sectors, what is written to it, how many of the writes are
// refused, and the totals and the sectors at the end, with 0 for an empty one.
#[derive(Clone, Copy)]
struct Row {
    name: &'static str,
    luns: u32,
    blocks: u32,
    endurance: u32,
    writes: &'static [(u32, u8)],
    refused: u32,
    totals: (u64, u64, u64),
    sectors: [u8; 3],
}

// Rows by their names: LUNs, blocks and endurance, what is written, and what is found.
macro_rules! rows {
    ($($name:literal: $luns:literal $blocks:literal $endurance:literal, $writes:expr => $refused:literal, $totals:expr, $sectors:expr;)*) => {
        [$(Row {
            name: $name,
            luns: $luns,
            blocks: $blocks,
            endurance: $endurance,
            writes: &$writes,
            refused: $refused,
            totals: $totals,
            sectors: $sectors,
        }),*]
    };
}

fn check_row(rt: &(impl Abort + AllocGlobal), row: Row) -> Result<(), Fail> {
    let mut layer = SmallLayer::new(rt, row.luns, row.blocks, 2, 3, row.endurance)?;
    let mut worn = 0u32;
    for (sector, byte) in row.writes {
        if layer.write(rt, *sector, *byte).is_none() {
            worn = worn.wrapping_add(1);
        }
    }
    let counts = layer.ftl.counts();
    let found = (
        worn,
        (counts.programs, counts.copies, counts.erases),
        [
            layer.read(rt, 0).unwrap_or(0),
            layer.read(rt, 1).unwrap_or(0),
            layer.read(rt, 2).unwrap_or(0),
        ],
    );
    assert!(rt;
        found == (row.refused, row.totals, row.sectors),
        "{:?}",
        row.name
    );
    Ok(())
}

#[test]
fn collection_and_wear_follow_the_worked_rows(rt: HostRuntime) -> Result<(), Fail> {
    let rows = rows! {
        "a victim with no live page": 1 3 10, [(0, 1), (1, 2), (0, 3), (1, 4), (2, 5)] => 0, (5, 0, 1), [3, 4, 5];
        "one page is relocated": 1 3 10, [(0, 1), (1, 2), (2, 3), (0, 4), (2, 5)] => 0, (5, 1, 1), [4, 2, 5];
        "the only erase fails": 1 3 1, [(0, 1), (1, 2), (0, 3), (1, 4), (2, 5), (0, 6), (1, 7)] => 1, (6, 0, 1), [6, 4, 5];
        "the second block has the fewest live pages": 1 4 10, [(0, 1), (1, 2), (2, 3), (2, 4), (2, 5), (2, 6), (0, 7)] => 0, (7, 0, 1), [7, 2, 6];
        "a page goes to the other LUN": 2 4 10, [(0, 1), (1, 2), (1, 3), (2, 4), (2, 5), (2, 6), (1, 7)] => 0, (7, 1, 1), [1, 7, 6];
        "two sectors in turn until the device is worn out": 1 3 2, [(0, 1), (1, 2), (0, 3), (1, 4), (0, 5), (1, 6), (0, 7), (1, 8), (0, 9),
            (1, 10), (0, 11), (1, 12), (0, 13)] => 1, (12, 0, 4), [11, 12, 0];
    };
    for row in rows {
        check_row(&rt, row)?;
    }
    Ok(())
}

#[test]
fn a_trim_empties_a_sector_and_programs_nothing(rt: HostRuntime) -> Result<(), Fail> {
    let mut layer = SmallLayer::new(&rt, 1, 3, 2, 3, 10)?;
    let written = layer.write(&rt, 0, 65);
    let trimmed = (layer.trim(&rt, 0), layer.trim(&rt, 0));
    let end = (layer.read(&rt, 0), layer.ftl.counts().programs);
    assert!(rt;
        (written, trimmed, end) == (Some(Was::Empty), (Was::Written, Was::Empty), (None, 1))
    );
    Ok(())
}

#[test]
fn a_written_sector_is_refused_before_a_page_is_programmed(rt: HostRuntime) -> Result<(), Fail> {
    let mut layer = SmallLayer::new(&rt, 1, 3, 2, 3, 10)?;
    let written = (layer.write_new(&rt, 0, 0x41), layer.write_new(&rt, 0, 0x42));
    let end = (layer.read(&rt, 0), layer.ftl.counts().programs);
    assert!(rt; (written, end) == ((Ok(()), Err(NewOneFault::Written)), (Some(0x41), 1)));
    Ok(())
}

// Two sectors are written in turns. The victims are blocks 0, 1, 2 and 0, whose second erase fails.
#[test]
fn each_block_has_its_wear(rt: HostRuntime) -> Result<(), Fail> {
    let mut layer = SmallLayer::new(&rt, 1, 3, 2, 3, 2)?;
    for byte in 0..6u8 {
        let is_written = layer.write(&rt, 0, byte).is_some() && layer.write(&rt, 1, byte).is_some();
        assert!(rt; is_written);
    }
    let wear = [layer.wear(&rt, 0), layer.wear(&rt, 1), layer.wear(&rt, 2)];
    assert!(rt; wear == [(2, 0, true), (1, 0, false), (1, 2, false)]);
    Ok(())
}

// A store that programs pages in order and collects nothing: where each sector's byte is.
#[derive(Drop)]
struct Plain {
    pages: Vec<u8>,
    current: Vec<Option<usize>>,
}

impl Plain {
    fn new(alloc: Global, sectors: u32) -> Result<Plain, Fail> {
        Ok(Plain {
            pages: Vec::new(alloc),
            current: vec![in alloc; None; sectors as usize]?,
        })
    }

    fn write(&mut self, sector: u32, byte: u8) -> Result<Was, Fail> {
        let page = self.pages.len();
        self.pages.push(byte)?;
        Ok(match self.current.get_mut(sector as usize) {
            None => Was::Empty,
            Some(place) => match place.replace(page) {
                None => Was::Empty,
                Some(_) => Was::Written,
            },
        })
    }

    fn trim(&mut self, sector: u32) -> Was {
        match self.current.get_mut(sector as usize) {
            None => Was::Empty,
            Some(place) => match place.take() {
                None => Was::Empty,
                Some(_) => Was::Written,
            },
        }
    }

    fn read(&self, sector: u32) -> Option<u8> {
        let page = (*self.current.get(sector as usize)?)?;
        self.pages.get(page).copied()
    }
}

// The next number of a pseudo-random sequence.
fn following(seed: u32) -> u32 {
    seed.wrapping_mul(1_664_525).wrapping_add(1_013_904_223)
}

// Plays pseudo-random reads, writes and trims on the layer and on the plain store, and compares each answer.
fn compare(
    rt: &(impl Abort + AllocGlobal),
    layer: &mut SmallLayer,
    commands: u32,
) -> Result<(), Fail> {
    let sectors = layer.ftl.geometry().sectors();
    let mut plain = Plain::new(rt.alloc(), sectors)?;
    let mut seed = 1;
    for _ in 0..commands {
        seed = following(seed);
        let sector = (seed >> 8) % sectors;
        let byte = (seed >> 16 & 255) as u8;
        let is_same = match seed >> 28 {
            0 | 1 => layer.trim(rt, sector) == plain.trim(sector),
            2..=5 => layer.read(rt, sector) == plain.read(sector),
            _ => layer.write(rt, sector, byte) == Some(plain.write(sector, byte)?),
        };
        assert!(rt; is_same);
    }
    for sector in 0..sectors {
        assert!(rt; layer.read(rt, sector) == plain.read(sector));
    }
    Ok(())
}

#[test]
fn the_layer_agrees_with_a_plain_store_until_it_collects(rt: HostRuntime) -> Result<(), Fail> {
    let mut layer = SmallLayer::new(&rt, 1, 64, 64, 100, 10)?;
    compare(&rt, &mut layer, 5000)?;
    assert!(rt; layer.ftl.counts().erases == 0);
    Ok(())
}

#[test]
fn a_full_device_reads_what_was_last_written(rt: HostRuntime) -> Result<(), Fail> {
    let mut layer = SmallLayer::new(&rt, 2, 16, 8, 110, 1_000_000)?;
    compare(&rt, &mut layer, 30_000)?;
    assert!(rt; layer.ftl.counts().erases > 1000);
    Ok(())
}
