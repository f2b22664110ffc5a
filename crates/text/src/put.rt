//! Puts texts at a place in a buffer. The bytes after a text may change, within its room.
ghost use Rattle.std.specs.Prelude.{◌≡◌, ◌+◌, ◌*◌, ◌<◌, ◌≤◌, [], ◌∷◌, ◌++◌, length, take, decimal};
ghost use Rattle.hex.specs.Hex.{encode_lower};
ghost use Rattle.text.specs.Putting.{PutsText, four_digits, short_of, two_digits};

use crate::encoding::encode;
use std::simd::prelude::*;

/// How many bytes are stored at once for a short text.
pub const SHORT_BYTES: usize = 16;

/// The most digits of a number.
pub const NUMBER_BYTES: usize = 20;

// The digits of the numbers below 100.
static PAIRS: [u8; 200] =
    *b"00010203040506070809101112131415161718192021222324252627282930313233343536373839404142434445464748\
       4950515253545556575859606162636465666768697071727374757677787980818283848586878889909192939495969798\
       99";

/// A short text and its length. The bytes after it don't count.
#[derive(Drop)]
pub struct Short {
    pub bytes: [u8; SHORT_BYTES],
    pub len: usize,
}

// Digits of which the first ones count.
#[derive(Clone, Copy)]
struct Filled {
    digits: u32,
    count: usize,
}

/// Puts a short text. Returns the index after it.
#[inline(always)]
pub fn put_short(buffer: &mut [u8], at: usize, text: &Short) -> usize
    requires room { at + SHORT_BYTES ≤ length buffer.old }
    requires short { text.now.len ≤ SHORT_BYTES }
    ensures placed { PutsText buffer.old buffer.new at (short_of text.now) result }
    ensures end { result ≤ at + SHORT_BYTES }
{
    u8x16::from_array(text.bytes).copy_to_slice(&mut buffer[at..]);
    at + text.len
}

/// Puts a text. Returns the index after it.
pub fn put_text(buffer: &mut [u8], at: usize, text: &[u8]) -> usize
    requires { at + length text.now ≤ length buffer.old }
    ensures placed { PutsText buffer.old buffer.new at text.now result }
    ensures end { result ≡ at + length text.now }
{
    let end = at + text.len();
    buffer[at..end].copy_from_slice(text);
    end
}

/// Puts the digits of a page. Returns the index after them.
#[inline(always)]
pub fn put_page(buffer: &mut [u8], at: usize, page: &[u8]) -> usize
    requires { at + 2 * length page.now ≤ length buffer.old }
    ensures placed { PutsText buffer.old buffer.new at (encode_lower page.now) result }
    ensures end { result ≡ at + 2 * length page.now }
{
    let end = at + 2 * page.len();
    encode(page, &mut buffer[at..end]);
    end
}

/// Puts a number in decimal digits, and a byte after it. Returns the index after both.
#[inline(always)]
pub fn put_number(buffer: &mut [u8], at: usize, number: u64, end: u8) -> usize
    requires { at + NUMBER_BYTES + 1 ≤ length buffer.old }
    ensures placed { PutsText buffer.old buffer.new at (decimal number ++ end ∷ []) result }
    ensures end { result ≤ at + NUMBER_BYTES + 1 }
{
    let last = put_digits(buffer, at, number);
    buffer[last] = end;
    last + 1
}

// Puts a number in decimal digits. Returns where they end.
#[inline(always)]
fn put_digits(buffer: &mut [u8], at: usize, number: u64) -> usize
    requires { at + NUMBER_BYTES ≤ length buffer.old }
    ensures placed { PutsText buffer.old buffer.new at (decimal number) result }
    ensures end { result ≤ at + NUMBER_BYTES }
{
    if number < 10_000 {
        return put_first(buffer, at, number as u32);
    }
    if number < 100_000_000 {
        let middle = put_first(buffer, at, (number / 10_000) as u32);
        put_four(buffer, middle, (number % 10_000) as u32);
        return middle + 4;
    }
    put_long(buffer, at, number)
}

/// Puts the digits of a number that has at most four. Returns the index after them.
#[inline(always)]
pub(crate) fn put_first(buffer: &mut [u8], at: usize, number: u32) -> usize
    requires { (number < 10000) × (at + 4 ≤ length buffer.old) }
    ensures placed { PutsText buffer.old buffer.new at (decimal number) result }
    ensures end { result ≤ at + 4 }
{
    let filled = fill(number);
    put_four(buffer, at, filled.digits);
    at + filled.count
}

// A number with zeros behind it, so that it has four digits.
#[inline(always)]
fn fill(number: u32) -> Filled
    requires { number < 10000 }
    ensures digits { take result.count (four_digits result.digits) ≡ decimal number }
    ensures four { (result.digits < 10000) × (result.count ≤ 4) }
{
    let (factor, count) = if number < 10 {
        (1000, 1)
    } else if number < 100 {
        (100, 2)
    } else if number < 1000 {
        (10, 3)
    } else {
        (1, 4)
    };
    Filled {
        digits: factor * number,
        count,
    }
}

/// Puts four digits.
#[inline(always)]
pub(crate) fn put_four(buffer: &mut [u8], at: usize, digits: u32)
    requires { (digits < 10000) × (at + 4 ≤ length buffer.old) }
    ensures { PutsText buffer.old buffer.new at (four_digits digits) (at + 4) }
{
    put_two(buffer, at, digits / 100);
    put_two(buffer, at + 2, digits % 100);
}

// Puts two digits.
#[inline(always)]
fn put_two(buffer: &mut [u8], at: usize, digits: u32)
    requires { (digits < 100) × (at + 2 ≤ length buffer.old) }
    ensures { PutsText buffer.old buffer.new at (two_digits digits) (at + 2) }
{
    let from = 2 * digits as usize;
    let (tens, ones) = (PAIRS[from], PAIRS[from + 1]);
    buffer[at] = tens;
    buffer[at + 1] = ones;
}

// Puts the digits of a number that has more than eight. Returns where they end.
#[cold]
fn put_long(buffer: &mut [u8], at: usize, number: u64) -> usize
    requires { at + NUMBER_BYTES ≤ length buffer.old }
    ensures placed { PutsText buffer.old buffer.new at (decimal number) result }
    ensures end { result ≤ at + NUMBER_BYTES }
{
    let mut digits = itoa::Buffer::new();
    put_text(buffer, at, digits.format(number).as_bytes())
}
