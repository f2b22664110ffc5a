//! A modelled NAND die by the rules of ONFI 4.0 and one fixed profile: pages are read and programmed,
//! blocks are erased, a page is programmed once between two erases and in order, and the last erase
//! of a block's endurance fails and retires it.
#![tactic(auto)]

mod die;
mod slots;

pub use die::{Die, ERASED_BYTE, ERASED_STAMP};
