//! Calls on a small device, with their answers.
use broom::{Drain, Erase};
use geometry::{Got, Was, put_word, word_at};

/// How many words a page has.
pub(crate) const WORDS: u32 = 4;

pub(crate) const BYTES: usize = 32;

/// The page of a number: no two pages that are written have a word in common.
pub(crate) fn page(number: u64) -> [u8; BYTES] {
    let mut page = [0; BYTES];
    put_word(&mut page, 0, number);
    put_word(&mut page, 1, !number);
    put_word(&mut page, 2, number);
    put_word(&mut page, 3, !number);
    page
}

/// The number of a page, or nothing for a torn one.
pub(crate) fn number_of(bytes: &[u8]) -> Option<u64> {
    if bytes.len() != BYTES {
        return None;
    }
    let number = word_at(bytes, 0);
    if bytes == page(number).as_slice() {
        Some(number)
    } else {
        None
    }
}

/// Whether the sectors of a closed device hold these numbers, where 0 is an empty one.
pub(crate) fn hold(sectors: &[Option<Vec<u8>>], numbers: &[u64]) -> bool {
    for (sector, number) in sectors.iter().zip(numbers) {
        let is_held = match sector {
            Some(bytes) => *number != 0 && number_of(bytes) == Some(*number),
            None => *number == 0,
        };
        if !is_held {
            return false;
        }
    }
    sectors.len() == numbers.len()
}

/// A call of a host, of one that holds a page, or of a broom.
#[derive(Clone, Copy)]
pub(crate) enum Call {
    /// A write of the page of this number.
    Write(u32, u64),
    /// A write if the sector is empty.
    New(u32, u64),
    Trim(u32),
    Read(u32),
    /// Whether a sector is written.
    Ask(u32),
    Hold(u32),
    /// A look at the page that is held.
    Look,
    /// Whether the pass that holds a page has an open block.
    Opened,
    Release,
    Drain,
    Erase(u32),
    DrainOne,
    EraseOne,
    /// A drain with the broom's last survey, and one with the queue.
    DrainNext,
    DrainNextOne,
    /// A drain of a block without live pages, for which no spare is needed, and one with the queue.
    DrainDead,
    DrainDeadOne,
    Restock,
}

/// The answer of a call.
#[derive(Clone, Copy, PartialEq, Eq)]
pub(crate) enum Done {
    /// An actor of the caller's kind can't make this call.
    Nothing,
    /// What the sector was, or nothing if no block is left. A write of an empty sector doesn't change a written one.
    Wrote(Option<Was>),
    Trimmed(Was),
    /// The number of the sector's page, or nothing for an empty sector, after this many looks.
    Read(Option<u64>, u64),
    /// Whether the sector is written.
    Asked(bool),
    /// The block and the generation of the page that is held, or nothing for an empty sector.
    Holds(Option<(u32, u32)>),
    /// The number of the page that is held.
    Looked(u64),
    /// What was found isn't the page of any number.
    Torn,
    Opened(bool),
    Released,
    Drained(Drain),
    Erased(Erase),
    /// Whether the broom has a spare.
    Restocked(bool),
}

/// The answer of a read by its buffer, in which all bytes were 99.
pub(crate) fn read_done(got: Got, out: &[u8; BYTES], tries: u64) -> Done {
    match got {
        Got::Data => match number_of(out) {
            Some(number) => Done::Read(Some(number), tries),
            None => Done::Torn,
        },
        Got::Empty if *out == [99; BYTES] => Done::Read(None, tries),
        Got::Empty => Done::Torn,
    }
}

/// The sector was empty.
pub(crate) const EMPTY: Done = Done::Wrote(Some(Was::Empty));

/// The sector was written.
pub(crate) const WRITTEN: Done = Done::Wrote(Some(Was::Written));

/// No block is left.
pub(crate) const FULL: Done = Done::Wrote(None);

/// The trimmed sector was written.
pub(crate) const TRIMMED: Done = Done::Trimmed(Was::Written);
