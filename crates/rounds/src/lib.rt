//! The answers of a trace that several workers play in rounds: how they are kept, planned and put in order.
#![tactic(auto)]

mod answer;
mod answer_list;
mod answering;
mod plan;
mod rounds;

pub use answer::{Answer, Kind};
pub use answer_list::{Answers, Cursor};
pub use plan::{Plan, past};
pub use rounds::{rounds_are_answered_in_order, runs_are_answered_in_order};
