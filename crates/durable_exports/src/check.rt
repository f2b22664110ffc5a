//! The check of a page and its stamp.
ghost use Rattle.std.specs.Prelude.{◌≡◌};
ghost use Rattle.crc32c.specs.Crc.{extended};

/// The CRC-32C after more bytes; the CRC-32C of no bytes is 0.
#[unsafe(no_mangle)]
pub extern "C" fn mintlintel_crc32c(crc: u32, bytes: &[u8]) -> u32
    ensures { result ≡ extended crc bytes.now }
{
    crc32c::extend(crc, bytes)
}
