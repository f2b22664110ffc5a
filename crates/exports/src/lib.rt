//! The calls of C: a device for one thread, and a device that threads share, behind handles of two words.
#![tactic(auto)]

mod codes;
mod handle;
mod laws;
mod one;
mod reports;
mod shared;

pub use handle::Handle;
pub use handle::seat::{Holder, Host, Seat, Sweeper};
pub use one::{
    mintlintel_one_block, mintlintel_one_close, mintlintel_one_counts, mintlintel_one_numbers,
    mintlintel_one_open, mintlintel_one_read, mintlintel_one_trim, mintlintel_one_write,
    mintlintel_one_write_new,
};
pub use reports::{
    BlockReport, CountsReport, NumbersReport, PageReport, StateReport, TallyReport, Totals,
};
pub use shared::holder_calls::{
    mintlintel_host_copy, mintlintel_host_held, mintlintel_host_hold, mintlintel_host_release,
    mintlintel_host_word,
};
pub use shared::host_calls::{
    mintlintel_host_look, mintlintel_host_read, mintlintel_host_trim, mintlintel_host_write,
    mintlintel_host_write_new,
};
pub use shared::opening::mintlintel_shared_open;
pub use shared::{
    mintlintel_broom_block, mintlintel_broom_counts, mintlintel_broom_drain,
    mintlintel_broom_drain_dead, mintlintel_broom_drain_next, mintlintel_broom_erase,
    mintlintel_broom_restock, mintlintel_broom_tally, mintlintel_seat_close,
    mintlintel_seat_numbers,
};
