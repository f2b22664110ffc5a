ghost use Rattle.std.specs.Prelude.{◌≡◌, ℕ, List, Option, None, IfErr, IfOk, IfSome, slice_get, map, option_map, string_bytes};
ghost use Rattle.player.specs.CommandLine.{AreWordsOf, WhyUnread};

use crate::stop::Stop;
use std::alloc::{AllocError, Global};
use std::env::{Env, FillError};

/// The first size of the buffer for an argument. It is doubled until the argument fits.
const FIRST_BYTES: usize = 256;

/// The arguments of a program, without its name.
pub trait Arguments {
    /// All arguments, if they are known.
    ghost all: { Self → Option (List (List ℕ)) } = { λ _. None };

    /// The bytes of the argument at an index, or none past the last one.
    fn argument(&self, alloc: Global, place: usize) -> Result<Option<Vec<u8>>, AllocError>
        ensures { IfSome (all self.now)
            (λ arguments. IfOk result
            (λ found. option_map (λ bytes. bytes.items) found ≡ slice_get arguments place)) };
}

impl<S: Env> Arguments for S {
    fn argument(&self, alloc: Global, place: usize) -> Result<Option<Vec<u8>>, AllocError> {
        let mut bytes = vec![in alloc; 0u8; FIRST_BYTES]?;
        for _ in 0..usize::BITS {
            match self.arg(place.saturating_add(1), &mut bytes) {
                Ok(len) => {
                    bytes.truncate(len);
                    return Ok(Some(bytes));
                }
                Err(FillError::NotPresent) => return Ok(None),
                Err(FillError::TooLong) => bytes.resize(bytes.len().saturating_mul(2), 0)?,
            }
        }
        Err(AllocError)
    }
}

/// The words of the command line: the program's own name, by whatever name it was called, and then the arguments. Each has to be UTF-8.
pub fn read_words<S: Arguments>(system: &S, alloc: Global) -> Result<Vec<String>, Stop>
    ensures words { IfOk result
        (λ words. IfSome (S.all system.now) (AreWordsOf (map string_bytes words.items))) }
    ensures why { IfErr result (WhyUnread (S.all system.now)) }
{
    let Ok(name) = String::from_str(alloc, "flashplay") else {
        return Err(Stop::Memory);
    };
    let mut words = Vec::new(alloc);
    if words.push(name).is_err() {
        return Err(Stop::Memory);
    }
    for place in 0..usize::MAX {
        let Ok(found) = system.argument(alloc, place) else {
            return Err(Stop::Memory);
        };
        let Some(bytes) = found else {
            return Ok(words);
        };
        let Ok(word) = String::from_utf8(bytes) else {
            return Err(Stop::Encoding(place as u64 + 1));
        };
        if words.push(word).is_err() {
            return Err(Stop::Memory);
        }
    }
    Err(Stop::Memory)
}
