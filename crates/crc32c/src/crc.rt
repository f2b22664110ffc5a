ghost use Rattle.std.specs.Prelude.{◌≡◌, ℕ, List, ◌++◌};
ghost use Rattle.crc32c.specs.Crc.{crc32c_of, extended};

use crate::table::TABLE;

/// The CRC-32C of the bytes.
pub fn crc32c(bytes: &[u8]) -> u32
    ensures { result ≡ crc32c_of bytes.now }
{
    extend(0, bytes)
}

/// The CRC-32C after more bytes: of the bytes whose CRC-32C is given, and then these.
pub fn extend(crc: u32, bytes: &[u8]) -> u32
    ensures value { result ≡ extended crc bytes.now }
    ensures appends { (before : List ℕ) → crc ≡ crc32c_of before
        → result ≡ crc32c_of (before ++ bytes.now) }
{
    let mut remainder = crc ^ u32::MAX;
    for byte in bytes {
        let index = (remainder ^ u32::from(*byte)) & 0xff;
        remainder = (remainder >> 8) ^ TABLE[index as usize];
    }
    remainder ^ u32::MAX
}
