//! A handle of C, with a value on the heap behind one word, or none.
#![tactic(auto)]

mod handle;
mod laws;

pub use handle::{CLOSED, Handle, Slot, may_go};
