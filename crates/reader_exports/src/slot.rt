//! The first word of a handle, as C sees it: a pointer without its type.
ghost use Rattle.std.specs.Prelude.{Option};
ghost use Rattle.std.specs.Coded.{coded_option};
ghost use Rattle.handles.specs.Kept.{kept};
ghost use Rattle.reader_exports.specs.declared.seat.Seat.{Seat};
ghost use Rattle.reader_exports.specs.contracts.seat.Seat.{the_row};

use std::marker::Model;

/// A pointer to a seat, or none. It is not `Drop`, so that no seat is lost.
#[repr(C)]
pub struct Slot {
    at: *mut u8,
    pub ghost seat: { Option Seat } by { coded_option the_row.coded },
}

impl Model for Slot {
    ghost also_owns = { λ s. kept the_row s.at s.seat };
}

// A seat may go to another thread, and so may the pointer to it. `Handle::is_open` shows it.
unsafe impl Send for Slot {}
