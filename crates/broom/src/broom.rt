ghost use Rattle.std.specs.Prelude.{◌≡◌, IfOk, IfErr, replicate};
ghost use Rattle.flash_table.specs.declared.flash.Flash.{Flash};
ghost use Rattle.flash_table.specs.Flash.{broom_view, own_blocks, geometry_of};

use crate::ranking::Ranking;
use erase_queue::QueuePass;
use flash_table::BroomSeat;
use geometry::{Geometry, Phase, PinWord};
use std::alloc::{AllocError, Global};

/// The right to collect: each drain and erase takes one. It has the room for a survey: for each block its state as loaded, the number of its live
/// pages, and whether it is closed. The blocks that it has drained go into the queue, and it sets one aside if the queue has no room for it.
pub struct Broom {
    pub(crate) seat: BroomSeat,
    pub(crate) states: Vec<PinWord>,
    pub(crate) counts: Vec<u32>,
    pub(crate) closed: Vec<bool>,
    pub(crate) ranking: Ranking,
    pub(crate) place: QueuePass,
    pub(crate) aside: Option<u32>,
}

// What each place of a survey has before the first one.
const NOT_LOADED: PinWord = PinWord {
    readers: 0,
    phase: Phase::Free,
    written: 0,
    generation: 0,
};

// A list of this many values.
fn row<T: Copy>(alloc: Global, places: usize, value: T) -> Result<Vec<T>, AllocError>
    ensures { IfOk result (λ v. v.items ≡ replicate places value) }
{
    let mut row = Vec::with_capacity(alloc, places)?;
    row.resize(places, value)?;
    Ok(row)
}

impl Broom {
    ghost use Rattle.std.specs.Prelude.{None, is_some};
    ghost use Rattle.broom.specs.Ready.{HasNoMarks, IsRested, IsReady, IsSameSeat, view_of_broom, blocks_of_broom};
    ghost use Rattle.broom.specs.Handing.{place_of, aside_of};

    /// A broom with room for its surveys of a device of this geometry, and nothing set aside. If memory runs out, `Err` returns the seat and the
    /// queue's pass.
    pub fn new(
        alloc: Global,
        seat: BroomSeat,
        place: QueuePass,
        geometry: &Geometry,
    ) -> Result<Broom, (BroomSeat, QueuePass)>
        ensures view { IfOk result (λ b. view_of_broom b ≡ broom_view seat) }
        ensures blocks { IfOk result (λ b. blocks_of_broom b ≡ own_blocks seat) }
        ensures ready { IfOk result
            (λ b. (f : Flash) → geometry_of f ≡ geometry.now → IsRested f seat → IsReady f b) }
        ensures queue { IfOk result (λ b. (place_of b ≡ place) × (aside_of b ≡ None)) }
        ensures unmarked { IfOk result HasNoMarks }
        ensures refused { IfErr result (λ back. IsSameSeat seat back.0) }
        ensures place { IfErr result (λ back. back.1 ≡ place) }
    {
        let blocks = geometry.blocks() as usize;
        let Ok(states) = row(alloc, blocks, NOT_LOADED) else {
            return Err((seat, place));
        };
        let Ok(counts) = row(alloc, blocks, 0) else {
            return Err((seat, place));
        };
        let Ok(closed) = row(alloc, blocks, false) else {
            return Err((seat, place));
        };
        let Ok(ranking) = Ranking::new(alloc, blocks) else {
            return Err((seat, place));
        };
        Ok(Broom {
            seat,
            states,
            counts,
            closed,
            ranking,
            place,
            aside: None,
        })
    }

    /// Whether the broom has a block to copy to.
    pub fn has_spare(&self) -> bool
        ensures { result ≡ is_some (blocks_of_broom self.now).spare }
    {
        self.seat.blocks().spare.is_some()
    }
}
