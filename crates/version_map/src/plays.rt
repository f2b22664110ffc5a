//! What each kind of step tells the seat that makes it.
ghost use Rattle.version_map.specs.Rule.{saw_version, published_change, moved_page, new_reader, informed, spent_reader};

use crate::sighting::Sighting;
use atomic_table::{Join, Play, Split};

/// A seat loads a sector's word.
pub struct Look;

impl Play<(), Sighting> for Look {
    ghost then = { saw_version };
}

/// The publisher stores the word of a sector's new version, or 0.
pub struct Change;

impl Play<(), Sighting> for Change {
    ghost then = { published_change };
}

/// The publisher stores another page of the same version.
pub struct Move;

impl Play<(), Sighting> for Move {
    ghost then = { moved_page };
}

/// A reader is split off, which has seen as much.
pub struct NewReader;

impl Split<Sighting> for NewReader {
    ghost left = { λ v. v };

    ghost right = { new_reader };
}

/// A seat is told what a reader has seen.
pub struct Hear;

impl Join<Sighting> for Hear {
    ghost both = { informed };

    ghost spent = { spent_reader };
}
