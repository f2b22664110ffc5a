//! What a run over the commands of a trace leaves.
use crate::collector::collector_end::CollectorEnd;
use rounds::Answers;

/// The answers of each worker, and what each broom has done and knew last, both in the order of their numbers.
#[derive(Drop)]
pub struct RunEnd {
    pub rows: Vec<Answers>,
    pub brooms: Vec<CollectorEnd>,
}
