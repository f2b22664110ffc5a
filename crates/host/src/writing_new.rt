//! Writes of an empty sector: a page is filled and counted, and then the sector's map word is exchanged if it names no page.
ghost use Rattle.std.specs.Prelude.{◌≡◌, ℕ, ◌<◌, Err, length, IfSome};
ghost use Rattle.geometry.specs.Geometry.{sectors_of, page_bytes_of};
ghost use Rattle.flash_table.specs.Flash.{view_of, geometry_of};
ghost use Rattle.host.specs.Ready.{IsReady};
ghost use Rattle.host.specs.declared.writing_new.NewFault.TheVariants as fault;
ghost use Rattle.host.specs.Told.{WroteNew, Refused, was_found};
ghost use Rattle.flash_table.specs.Steps.{HasNumber};

use crate::writing::{close_if_full, program};
use flash_table::{Flash, Gate, NoGate, Pass, Point};
use geometry::Was;
use thiserror::Error;

/// Why a write of an empty sector changed no sector.
#[derive(Clone, Copy, Debug, PartialEq, Eq, Error)]
pub enum NewFault {
    /// The pass had no open block, and every block was found taken.
    #[error("every block is taken")]
    NoBlock,
    /// The sector was already written.
    #[error("the sector is written")]
    Written,
}

/// Writes a page of bytes to a sector if it is empty. The page is programmed before the sector is tested, so `NoBlock` is returned rather than
/// `Written` if both apply. After `Written` that page is dead.
pub fn write_new(flash: &Flash, pass: &mut Pass, sector: u32, bytes: &[u8]) -> Result<(), NewFault>
    requires pass { IsReady flash.now pass.old }
    requires sector { sector < sectors_of (geometry_of flash.now) }
    requires page { length bytes.now ≡ page_bytes_of (geometry_of flash.now) }
    ensures wrote { IfSome (was_found result)
        (λ was. (t : ℕ) → HasNumber t pass.old
        → WroteNew (view_of pass.old) t sector bytes.now was (view_of pass.new)) }
    ensures refused { result ≡ Err fault.NoBlock → Refused (view_of pass.old) (view_of pass.new) }
    ensures pass { IsReady flash.now pass.new }
{
    write_new_gated(flash, pass, sector, bytes, &mut NoGate)
}

/// A write of an empty sector that calls its gate after its page was counted, before the sector's map word is exchanged.
pub fn write_new_gated<G: Gate>(
    flash: &Flash,
    pass: &mut Pass,
    sector: u32,
    bytes: &[u8],
    gate: &mut G,
) -> Result<(), NewFault>
    requires pass { IsReady flash.now pass.old }
    requires sector { sector < sectors_of (geometry_of flash.now) }
    requires page { length bytes.now ≡ page_bytes_of (geometry_of flash.now) }
    ensures wrote { IfSome (was_found result)
        (λ was. (t : ℕ) → HasNumber t pass.old
        → WroteNew (view_of pass.old) t sector bytes.now was (view_of pass.new)) }
    ensures refused { result ≡ Err fault.NoBlock → Refused (view_of pass.old) (view_of pass.new) }
    ensures pass { IsReady flash.now pass.new }
{
    let Some(page) = program(flash, pass, sector, bytes) else {
        return Err(NewFault::NoBlock);
    };
    gate.at(Point::BeforePlace);
    let was = flash.place_new(pass, sector, page);
    close_if_full(flash, pass);
    match was {
        Was::Empty => Ok(()),
        Was::Written => Err(NewFault::Written),
    }
}
