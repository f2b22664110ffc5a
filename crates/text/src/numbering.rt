//! The numbers of lines. They grow by one from line to line, so the digits before the last four are kept.
ghost use Rattle.std.specs.Prelude.{◌≡◌, ◌+◌, ◌/◌, ◌%◌, ◌<◌, ◌≤◌, [], ◌∷◌, ◌++◌, length, decimal};
ghost use Rattle.text.specs.{Putting.PutsText, Putting.short_of, declared.numbering.TheConstants.STEP, declared.put.TheConstants.SHORT_BYTES};

use crate::put::{NUMBER_BYTES, SHORT_BYTES, Short, put_first, put_four, put_number, put_short};

/// How many numbers have the same digits before their last four.
const STEP: u64 = 10_000;

/// The first number for which the stored digits aren't used.
const LONG: u64 = 100_000_000;

/// The digits before the last four of the numbers from one on.
#[derive(Drop)]
pub struct Numbering {
    from: u64,
    digits: Short,
    ghost short: { digits.len ≤ SHORT_BYTES },
    ghost whole: { from % STEP ≡ 0 },
    ghost digits_of: { short_of digits ≡ decimal (from / STEP) },
}

impl Numbering {
    /// No digits are kept so far but those of the numbers below 10,000.
    pub fn new() -> Numbering {
        Numbering {
            from: 0,
            digits: Short {
                bytes: *b"0\0\0\0\0\0\0\0\0\0\0\0\0\0\0\0",
                len: 1,
            },
        }
    }

    /// Puts a number in decimal digits, and a comma after it. Returns the index after both.
    #[inline(always)]
    pub fn put(&mut self, buffer: &mut [u8], at: usize, number: u64) -> usize
        requires { at + NUMBER_BYTES + 1 ≤ length buffer.old }
        ensures placed { PutsText buffer.old buffer.new at (decimal number ++ 44 ∷ []) result }
        ensures end { result ≤ at + NUMBER_BYTES + 1 }
    {
        if number < STEP || number >= LONG {
            return put_number(buffer, at, number, b',');
        }
        if number < self.from || number - self.from >= STEP {
            self.turn_to(number);
        }
        let middle = put_short(buffer, at, &self.digits);
        let last = middle + 4;
        put_four(buffer, middle, (number - self.from) as u32);
        buffer[last] = b',';
        last + 1
    }

    // Keeps the digits before the last four of this number.
    #[cold]
    fn turn_to(&mut self, number: u64)
        requires { number < LONG }
        ensures { (self.new.from ≤ number) × (number < self.new.from + STEP) }
    {
        let first = (number / STEP) as u32;
        let mut bytes = [0u8; SHORT_BYTES];
        let len = put_first(&mut bytes, 0, first);
        *self = Numbering {
            from: u64::from(first) * STEP,
            digits: Short { bytes, len },
        };
    }
}
