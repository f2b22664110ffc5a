// Sixteen bytes of a text at once.

ghost use Rattle.std.specs.Prelude.{◌≡◌, ℕ, ◌+◌, ◌*◌, ◌<◌, ◌≤◌, true, length, map, slice_index};
ghost use Rattle.hex.specs.Hex.{is_hex_digit};
ghost use Rattle.text.specs.Lanes.{Decodes, IsBlock, IsDigitRun, IsRun, digit_lane, first_set};

use std::simd::prelude::*;

/// How many bytes are compared at once.
pub const LANES: usize = 16;

/// How many bytes of a long row of digits are compared in one step of a loop.
pub(crate) const WIDE: usize = 4 * LANES;

// The place of the lowest bit that is set.
#[inline(always)]
fn first_set(mask: u64) -> usize
    ensures { result ≡ first_set mask }
{
    if mask == 0 {
        LANES
    } else {
        mask.trailing_zeros() as usize
    }
}

/// How many of the bytes from a place on come before one that ends a field.
#[inline(always)]
pub fn field_run(text: &[u8], at: usize) -> usize
    requires { at + LANES ≤ length text.now }
    ensures { IsRun text.now at result }
{
    let bytes = u8x16::from_slice(&text[at..]);
    let line_ends = bytes.simd_eq(u8x16::splat(b'\r')) | bytes.simd_eq(u8x16::splat(b'\n'));
    let ends = line_ends | bytes.simd_eq(u8x16::splat(b','));
    first_set(ends.to_bitmask())
}

/// How many of the bytes from a place on come before one that isn't a digit.
#[inline(always)]
pub(crate) fn digit_run(text: &[u8], at: usize) -> usize
    requires { at + LANES ≤ length text.now }
    ensures { IsDigitRun text.now at result }
{
    let bytes = u8x16::from_slice(&text[at..]);
    let not_decimal = (bytes - u8x16::splat(b'0')).simd_ge(u8x16::splat(10));
    let no_letter = ((bytes | u8x16::splat(0x20)) - u8x16::splat(b'a')).simd_ge(u8x16::splat(6));
    first_set((not_decimal & no_letter).to_bitmask())
}

/// Whether all of the next bytes are digits.
#[inline(always)]
pub(crate) fn are_digits(text: &[u8], at: usize) -> bool
    requires { at + WIDE ≤ length text.now }
    ensures { result ≡ true → (k : ℕ) → at ≤ k → k < at + WIDE
        → is_hex_digit (slice_index text.now k) ≡ true }
{
    digit_run(text, at) == LANES
        && digit_run(text, at + LANES) == LANES
        && digit_run(text, at + 2 * LANES) == LANES
        && digit_run(text, at + 3 * LANES) == LANES
}

// The values of digits.
#[inline(always)]
fn values(digits: u8x16) -> u8x16
    ensures { result ≡ map digit_lane digits }
{
    let letters = digits.simd_gt(u8x16::splat(b'9'));
    let beyond = letters.select(u8x16::splat(9), u8x16::splat(0));
    (digits & u8x16::splat(15)) + beyond
}

/// The bytes that sixteen pairs of digits write.
#[inline(always)]
pub(crate) fn decode_block(text: &[u8], at: usize) -> u8x16
    requires room { at + 2 * LANES ≤ length text.now }
    requires digits { IsBlock text.now at }
    ensures { Decodes text.now at result }
{
    let front = values(u8x16::from_slice(&text[at..]));
    let back = values(u8x16::from_slice(&text[at + LANES..]));
    let (high, low) = front.deinterleave(back);
    (high << u8x16::splat(4)) + low
}
