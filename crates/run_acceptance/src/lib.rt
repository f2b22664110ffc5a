//! Tests of a run by many workers: rows with the same answers in every schedule, values that were written, workers that run at the same
//! time, and the gates of each thread and each call.
#![tactic(auto)]

#[cfg(test)]
mod tests;
