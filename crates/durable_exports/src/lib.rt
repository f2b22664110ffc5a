//! The calls of C for a device that survives power cuts. Each says what the flash has to do next, and none does it.
#![tactic(auto)]

mod calls;
mod check;
mod codes;
mod drives;
mod driving;
mod handle;
mod laws;
mod layer;
mod mounts;
mod reports;
mod seat;
mod slot;

pub use calls::{
    mintlintel_core_close, mintlintel_core_counts, mintlintel_core_done, mintlintel_core_erased,
    mintlintel_core_finish, mintlintel_core_keep_apart, mintlintel_core_losses,
    mintlintel_core_next, mintlintel_core_note, mintlintel_core_open, mintlintel_core_open_over,
    mintlintel_core_page,
};
pub use check::mintlintel_crc32c;
pub use driving::{
    mintlintel_driver_begin, mintlintel_driver_done, mintlintel_driver_found,
    mintlintel_driver_next, mintlintel_driver_open, mintlintel_driver_page,
    mintlintel_driver_reserve, mintlintel_driver_result,
};
pub use handle::Handle;
pub use layer::Layer;
pub use reports::{CommandReport, PlaceReport, StepReport, Totals};
pub use seat::Seat;
