//! What C holds: a handle of seats, under a name that is not generic.
ghost use Rattle.std.specs.Prelude.{◌≡◌};
ghost use Rattle.handles.specs.Kept.{SaysWhetherOpen};

use crate::seat::Seat;
use crate::slot::Slot;
use handles::may_go;

/// A handle: closed, which is all zero bytes, or open, with a seat.
#[repr(C)]
pub struct Handle {
    slot: Slot,
    is_open: u64,
    ghost known: { SaysWhetherOpen is_open slot.seat },
}

impl Handle {
    ghost use Rattle.std.specs.Prelude.{is_some};
    ghost use Rattle.std.specs.Borrow.{sem};
    ghost use Rattle.reader_exports.specs.Handles.{seat_of, LendsMap, typed_map};

    /// Whether the handle is open.
    pub(crate) fn is_open(&self) -> bool
        ensures { result ≡ is_some (seat_of self.now) }
    {
        may_go(self);
        self.is_open > 0
    }

    /// The handle with its type, which has the same words.
    pub(crate) fn typed(&mut self) -> &mut handles::Handle<Seat>
        ensures* lends { sem 𝓛 (LendsMap self.entry result) }
        ensures value { result.now ≡ typed_map self.old }
    {
        unsafe { &mut *(self as *mut Handle as *mut handles::Handle<Seat>) }
    }
}
