//! Laws of CRC-32C: the examples of RFC 3720, appendix B.4. Each function has no code.
ghost use Rattle.std.specs.{Prelude.◌≡◌, Prelude.◌+◌, Prelude.◌^◌, Prelude.[], Prelude.codes, Prelude.replicate, List.range_with_len};
ghost use Rattle.crc32c.specs.Crc.{generator, times_x, times_x8, with_byte, crc32c_of, extended};

/// The generator, and products with x.
#[tactic(auto, unfolding(crate::specs::Crc::times_x, crate::specs::Crc::times_x8, crate::specs::Crc::with_byte))]
pub fn polynomials()
    ensures generator { generator
        ≡ 2 ^ 3 + 2 ^ 4 + 2 ^ 5 + 2 ^ 6 + 2 ^ 8 + 2 ^ 9 + 2 ^ 11 + 2 ^ 12 + 2 ^ 13
        + 2 ^ 17 + 2 ^ 18 + 2 ^ 20 + 2 ^ 21 + 2 ^ 22 + 2 ^ 23 + 2 ^ 25 + 2 ^ 31 }
    ensures low { times_x 6 ≡ 3 }
    ensures high { times_x 1 ≡ generator }
    ensures eighth { times_x8 0x100 ≡ 1 }
    ensures byte { with_byte 0x100 0 ≡ 1 }
    ensures lowest_bit_first { with_byte 0 0x80 ≡ generator }
{}

/// The examples of RFC 3720, and the one of most catalogues.
#[tactic(auto, unfolding(crate::specs::Crc::times_x, crate::specs::Crc::times_x8, crate::specs::Crc::with_byte))]
pub fn examples()
    ensures nothing { crc32c_of [] ≡ 0 }
    ensures digits { crc32c_of (codes "123456789") ≡ 0xe306_9283 }
    ensures zeros { crc32c_of (replicate 32 0) ≡ 0x8a91_36aa }
    ensures ones { crc32c_of (replicate 32 255) ≡ 0x62a8_ab43 }
    ensures rising { crc32c_of (range_with_len 0 32) ≡ 0x46dd_794e }
    ensures extended { extended (crc32c_of (codes "12345")) (codes "6789") ≡ 0xe306_9283 }
{}
