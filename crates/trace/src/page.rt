ghost use Rattle.std.specs.Prelude.{◌≡◌, ◌==◌, length};
ghost use Rattle.trace.specs.Page.{IsData, page_with};
ghost use Rattle.text.specs.Digits.{bytes_of};

use std::marker::Model;
use text::decode;

/// The data of a command: the digits that the trace has for the first bytes of its page. The other bytes are zeros.
#[derive(Drop)]
pub struct Page<'a> {
    digits: &'a [u8],
    len: usize,
}

impl<'a> Model for Page<'a> {
    ghost use Rattle.std.specs.Prelude.{ℕ, List};
    ghost use Rattle.trace.specs.Page.{IsData, page_with};
    ghost use Rattle.text.specs.Digits.{bytes_of};

    ghost Value = { List ℕ };

    ghost view = { λ p. page_with p.len (bytes_of p.digits.now) };

    ghost invariant = { λ p. IsData p.len p.digits.now };
}

impl<'a> Page<'a> {
    // The page of `len` bytes that begins with those that the digits write.
    pub(crate) fn new(digits: &'a [u8], len: usize) -> Page<'a>
        requires { IsData len digits.now }
        ensures { result ≡ page_with len (bytes_of digits.now) }
    {
        Page { digits, len }
    }

    /// How many bytes the page has: those of a page for a write, and none for the other ops.
    pub fn len(&self) -> usize
        ensures { result ≡ length self.now }
    {
        self.len
    }

    /// Whether the page has no bytes, as for the ops that write none.
    pub fn is_empty(&self) -> bool
        ensures { result ≡ (length self.now == 0) }
    {
        self.len == 0
    }

    /// Copies the page into `out`.
    pub fn copy_into(&self, out: &mut [u8])
        requires { length out.old ≡ length self.now }
        ensures { out.new ≡ self.now }
    {
        let (front, rest) = out.split_at_mut(self.digits.len() / 2);
        decode(self.digits, front);
        rest.fill(0);
    }
}
