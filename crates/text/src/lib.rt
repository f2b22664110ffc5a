//! Text, sixteen bytes at a time: where fields and digits end, the bytes that digits write, and
//! numbers and pages put into a buffer.
#![tactic(auto)]

mod digits;
mod encoding;
mod lanes;
mod laws;
mod numbering;
mod put;

pub use digits::{are_pairs, decode, digits_end};
pub use lanes::{LANES, field_run};
pub use numbering::Numbering;
pub use put::{NUMBER_BYTES, SHORT_BYTES, Short, put_number, put_page, put_short, put_text};
