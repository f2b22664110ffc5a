ghost use Rattle.std.specs.Prelude.{◌≡◌, ℕ, ◌<◌, IfOk, Some, None, slice_get, length};
ghost use Rattle.geometry.specs.Geometry.{numbers_of, brooms_of, hosts_of};
ghost use Rattle.flash_rule.specs.Seats.{opening_words};
ghost use Rattle.flash_table.specs.Flash.{geometry_of, device};
ghost use Rattle.flash_table.specs.declared.pass.Pass.{Pass};
ghost use Rattle.flash_table.specs.declared.broom_seat.BroomSeat.{BroomSeat};
ghost use Rattle.flash_table.specs.declared.broom_seat.Reclaiming.TheVariants as reclaiming;
ghost use Rattle.flash_table.specs.Steps.{IsNewBroom, IsNewPass};

use crate::broom_seat::{BroomBlocks, BroomSeat, Reclaiming};
use crate::flash::{Flash, SharedTable};
use crate::pass::{OpenBlock, Pass};
use atomic_table::Table;
use flash_rule::{DealBroom, DealPass};
use geometry::{ERASED, Geometry, Phase, UNMAPPED, table_size};
use std::alloc::{AllocError, Global};

// The words of a device on which nothing was written.
fn opening(alloc: Global, geometry: &Geometry) -> Result<Vec<u64>, AllocError>
    ensures { IfOk result (λ words. words.items ≡ opening_words (numbers_of geometry.now)) }
{
    let sectors = geometry.sectors() as usize;
    let blocks = geometry.blocks() as usize;
    let brooms = geometry.brooms() as usize;
    let mut words = Vec::with_capacity(alloc, table_size(geometry))?;
    words.resize(sectors, UNMAPPED)?;
    words.resize(sectors + (blocks - brooms), Phase::Free.bits())?;
    words.resize(sectors + blocks, Phase::Open.bits())?;
    words.resize(table_size(geometry), ERASED)?;
    Ok(words)
}

// The blocks of a broom that has done nothing.
fn blocks_with_spare(block: u32) -> BroomBlocks
    ensures { result
        ≡ record { destination = None; spare = Some (record { block = block; generation = 0; written = 0 }); reclaiming = reclaiming.Nothing } }
{
    BroomBlocks {
        destination: None,
        spare: Some(OpenBlock {
            block,
            generation: 0,
            written: 0,
        }),
        reclaiming: Reclaiming::Nothing,
    }
}

impl Flash {
    /// A device with its hosts' passes, pass t with number t, and its brooms' seats, each with a spare. `Err` means out of memory.
    pub fn open(
        alloc: Global,
        geometry: &Geometry,
    ) -> Result<(Flash, Vec<Pass>, Vec<BroomSeat>), AllocError>
        ensures geometry { IfOk result (λ r. geometry_of r.0 ≡ geometry.now) }
        ensures count { IfOk result
            (λ r. (length r.1.items ≡ hosts_of geometry.now)
            × (length r.2.items ≡ brooms_of geometry.now)) }
        ensures passes { IfOk result
            (λ r. (t : ℕ) (p : Pass) → slice_get r.1.items t ≡ Some p → IsNewPass r.0 t p) }
        ensures brooms { IfOk result
            (λ r. (i : ℕ) (b : BroomSeat) → slice_get r.2.items i ≡ Some b → IsNewBroom r.0 i b) }
    {
        let words = opening(alloc, geometry)?;
        let (table, mut dealer): (SharedTable, _) = Table::of_words(alloc, &words, geometry)?;
        let flash = Flash {
            table,
            geometry: *geometry,
        };
        let hosts = flash.geometry.hosts() as usize;
        let mut passes = Vec::with_capacity(alloc, hosts)?;
        let count = flash.geometry.brooms();
        let Ok(mut brooms) = Vec::with_capacity(alloc, count as usize) else {
            passes.destroy_empty();
            return Err(AllocError);
        };
        for _ in 0..hosts {
            let seat = flash.table.shared.split_seat::<DealPass>(&mut dealer);
            passes.push_reserved(Pass { seat, opened: None });
        }
        let first_spare = flash.geometry.blocks() - count;
        for i in 0..count {
            let seat = flash.table.shared.split_seat::<DealBroom>(&mut dealer);
            brooms.push_reserved(BroomSeat {
                seat,
                blocks: blocks_with_spare(first_spare + i),
            });
        }
        Ok((flash, passes, brooms))
    }
}
