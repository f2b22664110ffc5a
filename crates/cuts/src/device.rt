use crate::arguments::Given;
use crate::harm::Harm;
use crate::stop::Stop;
use answers::{Reply, RunFault};
use nand::{Chip, Durable, Extent, Failure, Got, Nand, Shape, Tally};
use std::alloc::Global;
use trace::{Command, Op};

// Of so many blocks one is spare, and at least one.
const ONE_SPARE_IN: u32 = 50;

/// The layer over a chip that comes to harm.
#[derive(Drop)]
pub struct Device {
    alloc: Global,
    layer: Durable<Chip>,
    harm: Harm,
    // How many blocks were in reserve at the last mount.
    reserve: u32,
}

// Copies a command's page. It has the size of all pages, as in each trace that was read.
fn fill(page: &mut [u8], command: &Command<'_>) -> Result<(), Failure> {
    if command.page.len() != page.len() {
        return Err(Failure::Lost);
    }
    command.page.copy_into(page);
    Ok(())
}

impl Device {
    /// An empty device, for so many calls.
    pub fn new(alloc: Global, given: &Given, calls: usize) -> Result<Device, Stop> {
        let blocks = given.geometry.blocks();
        let shape = Shape {
            blocks,
            pages: given.geometry.pages(),
            page_bytes: given.geometry.page_bytes(),
            spare_blocks: given.failures.max(blocks / ONE_SPARE_IN + 1),
        };
        let chip = Chip::new(alloc, shape)?;
        let Ok(layer) = Durable::open(alloc, chip, given.geometry.sectors()) else {
            return Err(Stop::Run(RunFault::Memory));
        };
        let device = Device {
            alloc,
            layer,
            harm: Harm::new(given, calls),
            reserve: 0,
        };
        device.mounted()
    }

    /// The device mounted anew, with power, and what befalls it next.
    pub fn mounted(self) -> Result<Device, Stop> {
        let Device {
            alloc,
            layer,
            mut harm,
            ..
        } = self;
        let (sectors, reserve) = (layer.sectors(), layer.reserve());
        let mut chip = layer.into_nand();
        chip.power_on();
        harm.put_on(&mut chip, reserve > 0);
        match Durable::open(alloc, chip, sectors) {
            Ok(layer) => Ok(Device {
                alloc,
                reserve: layer.reserve(),
                layer,
                harm,
            }),
            Err(_) => Err(Stop::Run(RunFault::Memory)),
        }
    }

    /// Mounts the device anew if a command has failed, since only then another one is told to fail.
    pub fn after_failure(self) -> Result<Device, Stop> {
        if self.layer.reserve() < self.reserve {
            return self.mounted();
        }
        Ok(self)
    }

    /// Makes a call, once. A read leaves its value in the page, which is a buffer otherwise.
    pub fn call(&mut self, command: &Command<'_>, page: &mut [u8]) -> Result<Reply, Failure> {
        let sector = command.sector;
        if sector >= self.layer.sectors() || page.len() != self.layer.page_bytes() {
            return Err(Failure::Lost);
        }
        match command.op {
            Op::Read => match self.layer.read(sector, page)? {
                Got::Data => Ok(Reply::Page),
                Got::Empty => Ok(Reply::Empty),
            },
            Op::Write => {
                let got = self.layer.read(sector, page)?;
                fill(page, command)?;
                self.layer.write(sector, page)?;
                Ok(match got {
                    Got::Data => Reply::Written,
                    Got::Empty => Reply::Empty,
                })
            }
            Op::New => {
                fill(page, command)?;
                match self.layer.write_new(sector, page) {
                    Ok(()) => Ok(Reply::Empty),
                    Err(Failure::Written) => Ok(Reply::Written),
                    Err(failure) => Err(failure),
                }
            }
            Op::Trim => {
                let extent = Extent {
                    first: sector,
                    count: 1,
                };
                Ok(Reply::of_was(self.layer.trim(extent)?))
            }
            Op::Meet => Ok(Reply::Met),
        }
    }

    /// What the chip has done, how often its power was cut, and how many of its blocks have gone bad.
    pub fn end(self) -> (Tally, u64, u32) {
        let Device { layer, harm, .. } = self;
        let tally = layer.tally();
        let mut chip = layer.into_nand();
        let mut bad = 0u32;
        for block in 0..chip.shape().blocks {
            if chip.is_bad(block) == Ok(true) {
                bad = bad.saturating_add(1);
            }
        }
        (tally, harm.cuts(&chip), bad)
    }
}
