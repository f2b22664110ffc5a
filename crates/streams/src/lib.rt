//! Readers and writers whose failed calls are counted, and files that are opened by their names.
#![tactic(auto)]

mod named_file;
mod watched;

pub use named_file::{NamedFile, OpenFault};
pub use watched::Watched;
