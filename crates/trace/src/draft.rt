// The commands of the lines so far, while their text is still being read.

ghost use Rattle.std.specs.Prelude.{◌≡◌, ◌+◌, ◌^◌, ◌<◌, ◌≤◌, [], take, drop, length, OnOk};
ghost use Rattle.trace.specs.{Page.IsData, Parsing.page_len, Stored.AreKept, Stored.Pushes, Stored.stored_in};

use crate::stored::{AllStored, Head, Stored};
use std::alloc::{AllocError, Global};

/// The commands of the lines so far. Their digits stay in the text, except those of fields with quotes.
#[derive(Drop)]
pub(crate) struct Draft {
    pub(crate) page_bytes: u16,
    pub(crate) stored: AllStored,
    pub(crate) odd: Vec<u8>,
}

impl Draft {
    /// An empty list of commands, for pages of `page_bytes` bytes.
    pub(crate) fn new(alloc: Global, page_bytes: u16) -> Draft
        ensures size { result.page_bytes ≡ page_bytes }
        ensures none { stored_in result.stored ≡ [] }
    {
        Draft {
            page_bytes,
            stored: AllStored::new(alloc),
            odd: Vec::new(alloc),
        }
    }

    /// How many commands there are.
    pub(crate) fn len(&self) -> usize
        ensures len { result ≡ length (stored_in self.now.stored) }
        ensures small { result + 1 < 2 ^ 64 }
    {
        self.stored.len()
    }

    /// Adds a command whose digits are at this place of the text.
    pub(crate) fn push(
        &mut self,
        text: &[u8],
        head: Head,
        start: usize,
        digits: u16,
    ) -> Result<(), AllocError>
        requires draft { AreKept text.now self.old }
        requires sector { head.sector < 2 ^ 24 }
        requires within { start + digits ≤ length text.now }
        requires fits { IsData (page_len head.op self.old.page_bytes)
            (take digits (drop start text.now)) }
        ensures size { OnOk result (self.new.page_bytes ≡ self.old.page_bytes) }
        ensures draft { OnOk result (AreKept text.now self.new) }
        ensures pushed { OnOk result
            (Pushes text.now self.old self.new head (take digits (drop start text.now))) }
    {
        self.stored.push(Stored::new(head, start, digits))?;
        Ok(())
    }

    /// Adds a command whose digits aren't in the text as they are.
    pub(crate) fn push_odd(
        &mut self,
        text: &[u8],
        head: Head,
        digits: &[u8],
    ) -> Result<(), AllocError>
        requires draft { AreKept text.now self.old }
        requires sector { head.sector < 2 ^ 24 }
        requires few { length digits.now < 2 ^ 16 }
        requires fits { IsData (page_len head.op self.old.page_bytes) digits.now }
        ensures size { OnOk result (self.new.page_bytes ≡ self.old.page_bytes) }
        ensures draft { OnOk result (AreKept text.now self.new) }
        ensures pushed { OnOk result (Pushes text.now self.old self.new head digits.now) }
    {
        let start = text.len() + self.odd.len();
        self.odd.extend_from_slice(digits)?;
        self.stored
            .push(Stored::new(head, start, digits.len() as u16))?;
        Ok(())
    }
}
