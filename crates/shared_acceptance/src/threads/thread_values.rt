//! What hosts in threads of their own write, and what a host knows of a sector.
ghost use Rattle.std.specs.Prelude.{◌<◌};

pub(crate) const HOSTS: u32 = 3;

pub(crate) const SECTORS: u32 = 6;

/// A host's write to a sector: the host, and the number of the write among those that it made to that sector.
#[derive(Clone, Copy, PartialEq, Eq)]
pub(crate) struct Value {
    pub writer: u32,
    pub number: u32,
}

/// The number of the page of a value, made of the writer, the sector and the write's number.
pub(crate) fn page_number(sector: u32, value: Value) -> u64 {
    u64::from(value.writer) << 40 | u64::from(sector) << 32 | u64::from(value.number)
}

/// The value of a page that was found in a sector, if a host writes such a page there.
pub(crate) fn value_of(sector: u32, found: u64) -> Option<Value> {
    let value = Value {
        writer: (found >> 40) as u32 % 256,
        number: (found % 4294967296) as u32,
    };
    let is_named = value.writer < HOSTS && value.number > 0;
    if is_named && found == page_number(sector, value) {
        Some(value)
    } else {
        None
    }
}

/// What a host found or wrote last in a sector, and for each writer the highest number that it has found or written there.
#[derive(Clone, Copy)]
pub(crate) struct Known {
    pub last: Option<Value>,
    pub newest: [u32; 3],
}

impl Known {
    /// For a sector that is empty and was never read.
    pub(crate) fn new() -> Known {
        Known {
            last: None,
            newest: [0; 3],
        }
    }

    /// Notes what was found, and returns whether it is possible: it is what was known last, or newer than all that is known of its writer.
    pub(crate) fn find(&mut self, found: Option<Value>) -> bool {
        let can_be = match found {
            Some(value) if self.last != found => self.raise(value),
            _ => true,
        };
        self.last = found;
        can_be
    }

    // Notes a number, and returns whether it is higher than those before.
    fn raise(&mut self, value: Value) -> bool {
        let Some(newest) = self.newest.get_mut(value.writer as usize) else {
            return false;
        };
        let is_newer = *newest < value.number;
        *newest = value.number;
        is_newer
    }
}
