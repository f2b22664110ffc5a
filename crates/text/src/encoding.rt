// Pages in hexadecimal digits, 16 bytes at a time.

ghost use Rattle.std.specs.Prelude.{◌≡◌, ◌*◌, ◌++◌, length, map};
ghost use Rattle.hex.specs.Hex.{encode_lower};
ghost use Rattle.text.specs.Digits.{AreValues, digit_of};

use std::simd::prelude::*;

const LANES: usize = 16;

// The digit of each value.
const DIGITS: [u8; LANES] = *b"0123456789abcdef";

// The digits of sixteen values, by one lookup.
#[inline(always)]
fn digits_of(values: u8x16) -> u8x16
    requires { AreValues values }
    ensures { result ≡ map digit_of values }
{
    u8x16::from_array(DIGITS).swizzle_dyn(values)
}

// The digits of sixteen bytes.
#[inline(always)]
fn encode_block(bytes: u8x16) -> (u8x16, u8x16)
    ensures digits { result.0 ++ result.1 ≡ encode_lower bytes }
    ensures lanes { (length result.0 ≡ LANES) × (length result.1 ≡ LANES) }
{
    let high = digits_of(bytes >> u8x16::splat(4));
    let low = digits_of(bytes & u8x16::splat(15));
    high.interleave(low)
}

/// Writes the two digits of each byte.
pub(crate) fn encode(bytes: &[u8], digits: &mut [u8])
    requires { length digits.old ≡ 2 * length bytes.now }
    ensures { digits.new ≡ encode_lower bytes.now }
{
    let mut at = 0;
    'blocks: while bytes.len() - at >= LANES {
        let (front, back) = encode_block(u8x16::from_slice(&bytes[at..]));
        front.copy_to_slice(&mut digits[2 * at..]);
        back.copy_to_slice(&mut digits[2 * at + LANES..]);
        at += LANES;
    }
    hex::encode_to_slice(&bytes[at..], &mut digits[2 * at..]).unwrap();
}
