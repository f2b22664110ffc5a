//! The parts of what a seat knows. No value of these types is made: they exist in proofs alone.

use geometry::{MapWord, Phase};
use std::collections::LinkedList;

/// Which pass or which broom.
pub enum Name {
    Pass(u64),
    Broom(u64),
}

/// What a seat is for.
pub enum Role {
    /// It deals the passes and brooms.
    Dealer,
    Player(Name),
    /// It carries copies of a player's lists to another one.
    Note,
    /// It was joined into another seat, and makes no more steps.
    Gone,
}

/// A block that a seat owns.
pub struct Owned {
    pub block: u64,
    pub phase: Phase,
    pub generation: u64,
    pub written: u64,
}

/// A page that a seat is filling, or has filled, with the words put there so far.
pub struct Work {
    pub page: MapWord,
    pub words: LinkedList<u64>,
}

/// What a pass knows of the page that it reads. The value is a page's bytes.
pub enum Pin {
    Clear,
    /// A look named the page.
    Candidate(MapWord, LinkedList<u64>),
    /// The block is pinned in the generation of the look.
    Accepted(MapWord, LinkedList<u64>),
    /// The block is pinned, but it isn't as it was at the look.
    Stray(u64),
}

/// The next page of a victim, its stamp, and its value once a look showed it live.
pub struct Source {
    pub page: MapWord,
    pub stamp: u64,
    pub value: Option<LinkedList<u64>>,
}

/// One generation of a closed block, and how many sectors, from 0 on, were found to have no page in it.
pub struct Inspection {
    pub block: u64,
    pub generation: u64,
    pub sectors: u64,
}

/// One generation of a block.
pub struct Cycle {
    pub block: u64,
    pub generation: u64,
}
