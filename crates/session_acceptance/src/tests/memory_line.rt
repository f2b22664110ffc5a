//! A command line in memory.
ghost use Rattle.std.specs.Prelude.{Some, map};

use player::Arguments;
use std::alloc::{AllocError, Global};

/// The arguments of a program.
#[derive(Drop)]
pub(crate) struct MemoryLine<'a> {
    pub(crate) words: &'a [&'a str],
}

impl Arguments for MemoryLine<'_> {
    ghost all = { λ line. Some (map (λ word. word.now) line.words.now) };

    fn argument(&self, alloc: Global, place: usize) -> Result<Option<Vec<u8>>, AllocError> {
        match self.words.get(place) {
            Some(word) => Ok(Some(Vec::from_slice(alloc, word.as_bytes())?)),
            None => Ok(None),
        }
    }
}
