// Hexadecimal digits, sixteen or sixteen pairs at a time. A table reads the rest, since a branch on each digit's
// kind would often be mispredicted.

ghost use Rattle.std.specs.Prelude.{◌≡◌, ◌*◌, ◌≤◌, length, unwrap_or, Ok, IsErr, MatchBool};
ghost use Rattle.hex.specs.Hex.{decode_of, hex_digit_value};
ghost use Rattle.text.specs.Digits.{EndsDigits, bytes_of};

use crate::lanes::{LANES, WIDE, are_digits, decode_block, digit_run};

// How many blocks of digits are looked at one by one. Most data is short.
const NEAR_BLOCKS: usize = 3;

// The value of each byte as a digit, and 16 if it is none.
#[rattlefmt::skip]
static VALUES: [u8; 256] = [
    16, 16, 16, 16, 16, 16, 16, 16, 16, 16, 16, 16, 16, 16, 16, 16,
    16, 16, 16, 16, 16, 16, 16, 16, 16, 16, 16, 16, 16, 16, 16, 16,
    16, 16, 16, 16, 16, 16, 16, 16, 16, 16, 16, 16, 16, 16, 16, 16,
     0,  1,  2,  3,  4,  5,  6,  7,  8,  9, 16, 16, 16, 16, 16, 16,
    16, 10, 11, 12, 13, 14, 15, 16, 16, 16, 16, 16, 16, 16, 16, 16,
    16, 16, 16, 16, 16, 16, 16, 16, 16, 16, 16, 16, 16, 16, 16, 16,
    16, 10, 11, 12, 13, 14, 15, 16, 16, 16, 16, 16, 16, 16, 16, 16,
    16, 16, 16, 16, 16, 16, 16, 16, 16, 16, 16, 16, 16, 16, 16, 16,
    16, 16, 16, 16, 16, 16, 16, 16, 16, 16, 16, 16, 16, 16, 16, 16,
    16, 16, 16, 16, 16, 16, 16, 16, 16, 16, 16, 16, 16, 16, 16, 16,
    16, 16, 16, 16, 16, 16, 16, 16, 16, 16, 16, 16, 16, 16, 16, 16,
    16, 16, 16, 16, 16, 16, 16, 16, 16, 16, 16, 16, 16, 16, 16, 16,
    16, 16, 16, 16, 16, 16, 16, 16, 16, 16, 16, 16, 16, 16, 16, 16,
    16, 16, 16, 16, 16, 16, 16, 16, 16, 16, 16, 16, 16, 16, 16, 16,
    16, 16, 16, 16, 16, 16, 16, 16, 16, 16, 16, 16, 16, 16, 16, 16,
    16, 16, 16, 16, 16, 16, 16, 16, 16, 16, 16, 16, 16, 16, 16, 16,
];

// The value of a digit, and 16 for a byte that is none.
#[inline]
fn value(digit: u8) -> u8
    ensures { result ≡ unwrap_or (hex_digit_value digit) 16 }
{
    VALUES[digit as usize]
}

/// How far digits go from a place on.
#[inline(always)]
pub fn digits_end(text: &[u8], start: usize) -> usize
    requires { start ≤ length text.now }
    ensures { EndsDigits text.now start result }
{
    let mut at = start;
    'near: for _ in 0..NEAR_BLOCKS {
        if text.len() - at < LANES {
            return far_digits_end(text, at);
        }
        let run = digit_run(text, at);
        if run < LANES {
            return at + run;
        }
        at += LANES;
    }
    far_digits_end(text, at)
}

// The same for many digits. A function of its own leaves the caller its registers.
#[inline(never)]
fn far_digits_end(text: &[u8], start: usize) -> usize
    requires { start ≤ length text.now }
    ensures { EndsDigits text.now start result }
{
    let mut at = start;
    'wide: while text.len() - at >= WIDE && are_digits(text, at) {
        at += WIDE;
    }
    'blocks: while text.len() - at >= LANES {
        let run = digit_run(text, at);
        if run < LANES {
            return at + run;
        }
        at += LANES;
    }
    'bytes: for end in at..text.len() {
        if value(text[end]) > 15 {
            return end;
        }
    }
    text.len()
}

/// Whether these are digits, and their number is even.
pub fn are_pairs(digits: &[u8]) -> bool
    ensures { MatchBool result (decode_of digits.now ≡ Ok (bytes_of digits.now))
        (IsErr (decode_of digits.now)) }
{
    digits.len() % 2 == 0 && digits_end(digits, 0) == digits.len()
}

/// Fills a slice with the bytes that these digits write.
pub fn decode(digits: &[u8], out: &mut [u8])
    requires digits { decode_of digits.now ≡ Ok (bytes_of digits.now) }
    requires count { length digits.now ≡ 2 * length out.old }
    ensures { out.new ≡ bytes_of digits.now }
{
    let mut at = 0;
    'blocks: while out.len() - at >= LANES {
        decode_block(digits, 2 * at).copy_to_slice(&mut out[at..]);
        at += LANES;
    }
    'bytes: for i in at..out.len() {
        let high = value(digits[2 * i]);
        let low = value(digits[2 * i + 1]);
        out[i] = high * 16 + low;
    }
}
