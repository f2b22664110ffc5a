// The commands of a text as they are kept: what each line says, and the place of its digits.

ghost use Rattle.std.specs.Prelude.{◌≡◌, ◌+◌, ◌^◌, ◌<◌, ◌++◌, ◌∷◌, ◌==◌, [], length, slice_index_or, OnOk};
ghost use Rattle.trace.specs.Stored.{head_of, lent_as, stored_in, widened};

use crate::commands::Op;
use std::alloc::{AllocError, Global};

/// A place before this one has four bytes.
pub(crate) const NEAR_BYTES: usize = 4_294_967_296;

/// What a line says without its digits.
#[derive(Clone, Copy)]
pub(crate) struct Head {
    pub(crate) worker: u16,
    pub(crate) op: Op,
    pub(crate) sector: u32,
}

/// What a line says, and how many digits it has, in eight bytes: so the sector is stored in two parts.
#[derive(Clone, Copy)]
pub(crate) struct Brief {
    pub(crate) digits: u16,
    worker: u16,
    sector_low: u16,
    sector_high: u8,
    op: Op,
}

/// A command, and the place of its digits: in the text, or after the text's end among those of fields with quotes.
#[derive(Clone, Copy)]
pub(crate) struct Stored {
    start: usize,
    brief: Brief,
}

/// The same of a command whose place has four bytes.
#[derive(Clone, Copy)]
pub(crate) struct Near {
    start: u32,
    brief: Brief,
}

const _: () = prove!(size_of::<Stored>() == 16);

const _: () = prove!(size_of::<Near>() == 12);

/// A command that is stored, without a copy.
#[derive(Clone, Copy)]
pub(crate) struct Lent<'a> {
    pub(crate) start: usize,
    pub(crate) brief: &'a Brief,
}

impl Brief {
    fn new(head: Head, digits: u16) -> Brief
        requires { head.sector < 2 ^ 24 }
        ensures head { head_of result ≡ head }
        ensures digits { result.digits ≡ digits }
    {
        Brief {
            digits,
            worker: head.worker,
            sector_low: (head.sector % 65_536) as u16,
            sector_high: (head.sector / 65_536) as u8,
            op: head.op,
        }
    }

    /// What the line says without its digits.
    pub(crate) fn head(&self) -> Head
        ensures { result ≡ head_of self.now }
    {
        Head {
            worker: self.worker,
            op: self.op,
            sector: u32::from(self.sector_low) + 65_536 * u32::from(self.sector_high),
        }
    }
}

impl Stored {
    /// A line whose digits are at a place.
    pub(crate) fn new(head: Head, start: usize, digits: u16) -> Stored
        requires { head.sector < 2 ^ 24 }
        ensures head { head_of result.brief ≡ head }
        ensures start { result.start ≡ start }
        ensures digits { result.brief.digits ≡ digits }
    {
        Stored {
            start,
            brief: Brief::new(head, digits),
        }
    }
}

impl Near {
    fn new(stored: Stored) -> Near
        requires { stored.start < NEAR_BYTES }
        ensures { widened result ≡ stored }
    {
        Near {
            start: stored.start as u32,
            brief: stored.brief,
        }
    }
}

/// Commands in order: near ones, and from the first one on whose place has no four bytes, far ones.
#[derive(Drop)]
pub(crate) struct AllStored {
    pub(crate) near: Vec<Near>,
    pub(crate) far: Vec<Stored>,
}

impl AllStored {
    /// None.
    pub(crate) fn new(alloc: Global) -> AllStored
        ensures { stored_in result ≡ [] }
    {
        AllStored {
            near: Vec::new(alloc),
            far: Vec::new(alloc),
        }
    }

    /// How many there are.
    pub(crate) fn len(&self) -> usize
        ensures len { result ≡ length (stored_in self.now) }
        ensures small { result + 1 < 2 ^ 64 }
    {
        self.near.len() + self.far.len()
    }

    /// The one at an index, from 0.
    #[inline(always)]
    pub(crate) fn at(&self, i: usize) -> Lent<'_>
        requires { i < length (stored_in self.now) }
        ensures { lent_as result ≡ slice_index_or (stored_in self.now) i (lent_as result) }
    {
        if i < self.near.len() {
            let near = &self.near[i];
            Lent {
                start: near.start as usize,
                brief: &near.brief,
            }
        } else {
            let far = &self.far[i - self.near.len()];
            Lent {
                start: far.start,
                brief: &far.brief,
            }
        }
    }

    /// Whether all are near.
    pub(crate) fn are_near(&self) -> bool
        ensures { result ≡ (length self.now.far.items == 0) }
    {
        self.far.is_empty()
    }

    /// Adds one.
    pub(crate) fn push(&mut self, stored: Stored) -> Result<(), AllocError>
        ensures { OnOk result (stored_in self.new ≡ stored_in self.old ++ stored ∷ []) }
    {
        if stored.start < NEAR_BYTES && self.are_near() {
            return self.push_near(stored);
        }
        self.far.push(stored)?;
        Ok(())
    }

    /// Adds one that is near, behind near ones.
    pub(crate) fn push_near(&mut self, stored: Stored) -> Result<(), AllocError>
        requires near { self.old.far.items ≡ [] }
        requires place { stored.start < NEAR_BYTES }
        ensures near { OnOk result (self.new.far.items ≡ []) }
        ensures pushed { OnOk result (stored_in self.new ≡ stored_in self.old ++ stored ∷ []) }
    {
        self.near.push(Near::new(stored))?;
        Ok(())
    }
}
