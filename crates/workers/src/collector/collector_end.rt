//! The end of a broom.
use crate::collector::tally::Tally;
use broom::Folded;

/// What a broom has done, and what it knew last.
#[derive(Drop)]
pub struct CollectorEnd {
    pub tally: Tally,
    pub folded: Folded,
}
