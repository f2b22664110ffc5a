ghost use Rattle.std.specs.Prelude.{◌≡◌, ◌<◌, ◌*◌, ◌%◌, length, replicate, slice_set, slice_index_or, IfOk};

use crate::words::SparseWords;
use std::alloc::{AllocError, Global};
use std::marker::Model;

/// Bytes of which most are 0, four to a word.
#[derive(Drop)]
pub struct SparseBytes {
    len: usize,
    words: SparseWords,
}

// Clauses see the list of the bytes.
impl Model for SparseBytes {
    ghost use Rattle.std.specs.Prelude.{◌≤◌, ◌*◌, List, ℕ, length};
    ghost use Rattle.packed_map.specs.Parts.{byte_at, values_of};

    ghost Value = { List ℕ };

    ghost view = { λ b. values_of (byte_at b.words) b.len };

    ghost invariant = { λ b. b.len ≤ length b.words * 4 };
}

impl SparseBytes {
    /// Each byte is 0.
    pub fn new(alloc: Global, len: u32) -> Result<Self, AllocError>
        ensures { IfOk result (λ bytes. bytes ≡ replicate len 0) }
    {
        Ok(SparseBytes {
            len: len as usize,
            words: SparseWords::new(alloc, len / 4 + 1)?,
        })
    }

    /// The byte at an index.
    pub fn get(&self, index: usize) -> u8
        requires { index < length self.now }
        ensures { result ≡ slice_index_or self.now index 0 }
    {
        ((self.words.get(index / 4) >> shift(index)) % 256) as u8
    }

    /// Sets the byte at an index.
    pub fn set(&mut self, index: usize, byte: u8)
        requires { index < length self.old }
        ensures { self.new ≡ slice_set self.old index byte }
    {
        let shift = shift(index);
        let word = self.words.get(index / 4);
        let rest = word - ((word >> shift) % 256 << shift);
        self.words.set(index / 4, rest + (u32::from(byte) << shift));
    }
}

// By how many bits a byte lies above the lowest of its word.
fn shift(index: usize) -> u32
    ensures { result ≡ 8 * (index % 4) }
{
    8 * (index % 4) as u32
}
