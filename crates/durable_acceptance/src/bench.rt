use nand::{Chip, Cut, Durable, Extent, Failure, Got, MountFault, Nand, OpenFailure, Shape, Was};
use std::alloc::Global;
use std::process::Abort;
use std::test::Fail;

/// How many sectors the devices of these tests have at most.
pub(crate) const SECTORS: usize = 16;

/// A chip whose pages have one byte.
pub(crate) fn chip(alloc: Global, blocks: u32, pages: u32) -> Result<Chip, Fail> {
    Ok(Chip::new(
        alloc,
        Shape {
            blocks,
            pages,
            page_bytes: 1,
            spare_blocks: blocks / 50 + 1,
        },
    )?)
}

/// The layer on a chip that can be opened.
pub(crate) fn open(
    rt: &(impl Abort + AllocGlobal),
    chip: Chip,
    sectors: u32,
) -> Option<Durable<Chip>> {
    match Durable::open(rt.alloc(), chip, sectors) {
        Ok(layer) => Some(layer),
        Err(refused) => {
            assert!(rt; false, "{:?}", refused.why);
            None
        }
    }
}

/// Why a chip is not opened, and the chip.
pub(crate) fn refused(
    rt: &(impl Abort + AllocGlobal),
    chip: Chip,
    sectors: u32,
) -> (Option<OpenFailure>, Chip) {
    match Durable::open(rt.alloc(), chip, sectors) {
        Ok(layer) => (None, layer.into_nand()),
        Err(refused) => (Some(refused.why), refused.nand),
    }
}

/// The sector's byte, or nothing if it is empty.
pub(crate) fn read(
    rt: &impl Abort,
    layer: &mut Durable<Chip>,
    sector: u32,
) -> Result<Option<u8>, Failure> {
    assert!(rt; sector < layer.sectors());
    assert!(rt; layer.page_bytes() == 1);
    let mut page = [0u8; 1];
    match layer.read(sector, &mut page) {
        Ok(Got::Data) => Ok(Some(page[0])),
        Ok(Got::Empty) => Ok(None),
        Err(failure) => Err(failure),
    }
}

/// A call that changes a sector, or trims an extent.
#[derive(Clone, Copy, Debug, PartialEq, Eq)]
pub(crate) enum Call {
    Write(u32, u8),
    WriteNew(u32, u8),
    Trim(Extent),
}

impl Call {
    /// The sectors that it changes.
    pub(crate) fn extent(self) -> Extent {
        match self {
            Call::Write(first, _) | Call::WriteNew(first, _) => Extent { first, count: 1 },
            Call::Trim(extent) => extent,
        }
    }

    /// What a sector of it holds after the call, if it is done.
    pub(crate) fn value(self, held: Option<u8>) -> Option<u8> {
        match self {
            Call::Write(_, byte) => Some(byte),
            Call::WriteNew(_, byte) => held.or(Some(byte)),
            Call::Trim(_) => None,
        }
    }
}

/// Makes a call. An answer that doesn't fit what its sectors held, of which one was written or none, ends the test.
pub(crate) fn make(
    rt: &impl Abort,
    layer: &mut Durable<Chip>,
    call: Call,
    held: Option<u8>,
) -> Result<(), Failure> {
    assert!(rt; layer.page_bytes() == 1);
    match call {
        Call::Write(sector, byte) => {
            assert!(rt; sector < layer.sectors());
            layer.write(sector, &[byte])
        }
        Call::WriteNew(sector, byte) => {
            assert!(rt; sector < layer.sectors());
            match layer.write_new(sector, &[byte]) {
                Ok(()) => {
                    assert!(rt; held.is_none(), "{call:?}");
                    Ok(())
                }
                Err(Failure::Written) => {
                    assert!(rt; held.is_some(), "{call:?}");
                    Ok(())
                }
                Err(failure) => Err(failure),
            }
        }
        Call::Trim(extent) => {
            let within = extent.lies_within(layer.sectors() as usize);
            assert!(rt; within);
            match layer.trim(extent) {
                Ok(was) => {
                    assert!(rt; (was == Was::Written) == held.is_some(), "{call:?}");
                    Ok(())
                }
                Err(failure) => Err(failure),
            }
        }
    }
}

/// How many blocks are marked bad.
pub(crate) fn marked(rt: &impl Abort, chip: &mut Chip) -> u32 {
    let mut count = 0u32;
    for block in 0..chip.shape().blocks {
        let is_bad = chip.is_bad(block);
        assert!(rt; is_bad.is_ok(), "{block:?}");
        if is_bad == Ok(true) {
            count = count.wrapping_add(1);
        }
    }
    count
}

/// Checks that a chip without power is not opened, and gives it power.
pub(crate) fn power_on(rt: &(impl Abort + AllocGlobal), chip: Chip, sectors: u32) -> Chip {
    let (why, mut chip) = refused(rt, chip, sectors);
    assert!(rt; why == Some(OpenFailure::PowerGone), "{why:?}");
    chip.power_on();
    chip
}

#[test]
fn a_chip_that_cannot_be_opened_comes_back(rt: HostRuntime) -> Result<(), Fail> {
    // Two blocks of two pages are as many as four sectors.
    let (why, chip) = refused(&rt, chip(rt.alloc(), 3, 2)?, 4);
    assert!(rt; why == Some(OpenFailure::Refused(MountFault::TooManySectors)));
    let Some(mut layer) = open(&rt, chip, 3) else {
        return Ok(());
    };
    assert!(rt; make(&rt, &mut layer, Call::Write(2, 7), None).is_ok());
    let (why, mut chip) = refused(&rt, layer.into_nand(), 2);
    assert!(rt; why == Some(OpenFailure::Refused(MountFault::ForeignStamp)));
    chip.cut_at(chip.commands(), Cut::Nothing);
    let Some(mut layer) = open(&rt, chip, 3) else {
        return Ok(());
    };
    assert!(rt; make(&rt, &mut layer, Call::Write(0, 1), None) == Err(Failure::PowerGone));
    assert!(rt; make(&rt, &mut layer, Call::Write(0, 1), None) == Err(Failure::Closed));
    assert!(rt; read(&rt, &mut layer, 2) == Err(Failure::Closed));
    let chip = power_on(&rt, layer.into_nand(), 3);
    let Some(mut layer) = open(&rt, chip, 3) else {
        return Ok(());
    };
    assert!(rt; read(&rt, &mut layer, 0) == Ok(None));
    assert!(rt; read(&rt, &mut layer, 2) == Ok(Some(7)));
    assert!(rt; layer.flush().is_ok());
    assert!(rt; layer.into_nand().violations() == 0);
    Ok(())
}
