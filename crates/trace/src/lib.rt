//! Traces: the text that a run plays. `load` reads it from a watched reader, and `parse` makes
//! commands of it or names its first fault.
#![tactic(auto)]

mod commands;
mod cutting;
mod draft;
mod fault;
mod laws;
mod limits;
mod loading;
mod page;
mod parsing;
mod rows;
mod stored;
mod usual;

pub use commands::{Command, CommandIter, Commands, Op};
pub use fault::{TraceFault, TraceFaultKind};
pub use limits::MAX_DIGITS;
pub use loading::{MAX_TRACE_BYTES, load};
pub use page::Page;
pub use parsing::{parse, parse_owned};
pub use streams::{NamedFile, OpenFault, Watched};
