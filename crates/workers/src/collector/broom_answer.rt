//! What a broom's calls return.
use broom::{Drain, Erase};

/// What one call of a broom returned.
#[derive(Clone, Copy, Debug, PartialEq, Eq)]
pub enum BroomAnswer {
    /// A drain by a new survey, and how many pages it programmed for copies.
    Drain(Drain, u64),
    /// A drain by the survey that the broom made last, and how many pages it programmed for copies.
    DrainNext(Drain, u64),
    /// A drain of a block without live pages, which programs none.
    DrainDead(Drain),
    Erase(Erase),
    /// Whether the broom has a spare after its search for one.
    Restock(bool),
}
