//! The brooms of a new device.
ghost use Rattle.std.specs.{Prelude.◌≡◌, Prelude.All, Prelude.IfOk, Prelude.None, Prelude.length, Prelude.map, Vec.Iter.into_iter_items};
ghost use Rattle.erase_queue.specs.Queue.{IsNewPass};
ghost use Rattle.broom.specs.{Handing.aside_of, Ready.IsReady, Ready.IsRested};
ghost use Rattle.volume.specs.Volume.{IsFresh, known_by_seat, known_by_broom};

use broom::{Broom, fold_new, fold_seat};
use erase_queue::{EraseQueue, QueuePass};
use flash_table::{BroomSeat, Flash};
use std::alloc::{AllocError, Global};
use std::vec::IntoIter;

// Gives up these seats.
fn fold_seats(flash: &Flash, seats: IntoIter<BroomSeat>)
    requires { All (IsRested flash.now) (into_iter_items seats) }
{
    let mut seats = seats;
    while let Some(seat) = seats.next() {
        fold_seat(flash, seat);
    }
    seats.destroy_empty();
}

// Gives up these brooms, which were just made.
fn fold_all(flash: &Flash, brooms: Vec<Broom>)
    requires { All (λ b. IsReady flash.now b × (aside_of b ≡ None)) brooms.items }
{
    let mut brooms = brooms;
    while let Some(broom) = brooms.pop() {
        fold_new(flash, broom);
    }
    brooms.destroy_empty();
}

// A broom for each seat, in their order, with a place at the queue. `Err` is out of memory, and all seats are folded.
pub(crate) fn make_brooms(
    flash: &Flash,
    queue: &EraseQueue,
    alloc: Global,
    seats: Vec<BroomSeat>,
    places: Vec<QueuePass>,
) -> Result<Vec<Broom>, AllocError>
    requires seats { All (IsRested flash.now) seats.items }
    requires places { All (IsNewPass queue.now) places.items }
    requires count { length places.items ≡ length seats.items }
    ensures same { IfOk result
        (λ brooms. map known_by_broom brooms.items ≡ map known_by_seat seats.items) }
    ensures fresh { IfOk result (λ brooms. All (IsFresh flash.now queue.now) brooms.items) }
{
    let mut seats = seats.into_iter();
    let mut places = places;
    let Ok(mut brooms) = Vec::with_capacity(alloc, seats.len()) else {
        fold_seats(flash, seats);
        return Err(AllocError);
    };
    while let Some(seat) = seats.next() {
        let Some(place) = places.pop() else {
            unreachable!()
        };
        match Broom::new(alloc, seat, place, flash.geometry()) {
            Ok(broom) => brooms.push_reserved(broom),
            Err((seat, _place)) => {
                fold_seat(flash, seat);
                fold_seats(flash, seats);
                fold_all(flash, brooms);
                return Err(AllocError);
            }
        }
    }
    seats.destroy_empty();
    Ok(brooms)
}
