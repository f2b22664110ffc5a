//! A device that many threads read while one owner changes it. A read waits for nobody: it looks which version the sector has, reads the page that
//! the map names, and takes the bytes if the page has the version with that number.
#![tactic(auto)]

mod flash;
mod laws;
mod layer;
mod owner;
mod owning;
mod reading;
mod search;

pub use flash::{PowerGone, SharedNand};
pub use layer::Layer;
pub use owner::Owner;
pub use owning::OwnerFailure;
pub use reading::{ReadFault, read};
pub use search::{Search, Step};
