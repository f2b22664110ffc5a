use geometry::{Geometry, GeometryFault, put_word, word_at};
use std::test::Fail;

// Geometries are rows of eight numbers: luns, blocks, pages, words, sectors, endurance, hosts, brooms.
fn geometry_of(n: [u32; 8]) -> Result<Geometry, GeometryFault> {
    Geometry::new(n[0], n[1], n[2], n[3], n[4], n[5], n[6], n[7])
}

#[test]
fn a_geometry_has_its_numbers(rt: HostRuntime) -> Result<(), Fail> {
    let one_thread = geometry_of([1, 3, 2, 1, 3, 10, 0, 0])?;
    assert!(rt; (one_thread.blocks(), one_thread.page_bytes()) == (3, 8));
    let shared = geometry_of([1, 5, 2, 1, 2, 10, 2, 1])?;
    assert!(rt; (shared.hosts(), shared.brooms()) == (2, 1));
    let two_luns = geometry_of([2, 4, 2, 1, 3, 10, 0, 0])?;
    assert!(rt; (two_luns.blocks(), two_luns.lun_of(1), two_luns.lun_of(2)) == (4, 0, 1));
    Ok(())
}

// Each limit at both ends: the last numbers that are accepted.
const ENDS: [[u32; 8]; 13] = [
    [8, 8, 2, 1, 3, 10, 0, 0],
    [1, 4096, 2, 1, 3, 10, 0, 0],
    [1, 4, 1, 1, 2, 10, 0, 0],
    [1, 3, 1025, 1, 3, 10, 0, 0],
    [1, 3, 16384, 1, 3, 10, 0, 0],
    [1, 3, 2, 512, 3, 10, 0, 0],
    [1, 3, 2, 1, 1, 10, 0, 0],
    [1, 4096, 512, 1, 1_048_576, 10, 0, 0],
    [1, 3, 2, 1, 3, 1, 0, 0],
    [1, 3, 2, 1, 3, 1_000_000, 0, 0],
    [1, 512, 2, 1, 24, 10, 500, 0],
    [1, 66, 2, 1, 2, 10, 1, 32],
    // a table of exactly 16,777,216 words
    [1, 1000, 1048, 15, 8216, 10, 0, 0],
];

// The first numbers that are refused, and further ones.
const BEYOND: [([u32; 8], GeometryFault); 25] = [
    ([0, 2, 2, 1, 3, 10, 0, 0], GeometryFault::Luns),
    ([2, 3, 2, 1, 3, 10, 0, 0], GeometryFault::Blocks),
    ([1, 3, 16385, 1, 3, 10, 0, 0], GeometryFault::Pages),
    ([1, 3, 2, 513, 3, 10, 0, 0], GeometryFault::Words),
    ([1, 3, 2, 1, 0, 10, 0, 0], GeometryFault::Sectors),
    ([1, 3, 2, 1, 3, 0, 0, 0], GeometryFault::Endurance),
    ([1, 3, 2, 1, 3, 10, 0, 1], GeometryFault::Passes),
    ([1, 3, 2, 1, 3, 10, 501, 0], GeometryFault::Passes),
    ([1, 4096, 1024, 3, 1, 10, 0, 0], GeometryFault::TooManyWords),
    ([1, 3, 2, 1, 4, 10, 0, 0], GeometryFault::TooFewBlocks),
    ([1, 5, 2, 1, 3, 10, 2, 1], GeometryFault::TooFewBlocks),
    ([1, 4, 2, 1, 1, 10, 2, 1], GeometryFault::TooFewBlocks),
    ([9, 9, 2, 1, 3, 10, 0, 0], GeometryFault::Luns),
    ([1, 2, 2, 1, 1, 10, 0, 0], GeometryFault::Blocks),
    ([1, 4097, 2, 1, 3, 10, 0, 0], GeometryFault::Blocks),
    ([1, 3, 0, 1, 3, 10, 0, 0], GeometryFault::Pages),
    ([1, 3, 2, 0, 3, 10, 0, 0], GeometryFault::Words),
    (
        [1, 4096, 512, 1, 1_048_577, 10, 0, 0],
        GeometryFault::Sectors,
    ),
    ([1, 3, 2, 1, 3, 1_000_001, 0, 0], GeometryFault::Endurance),
    ([1, 512, 2, 1, 24, 10, 501, 0], GeometryFault::Passes),
    ([1, 66, 2, 1, 2, 10, 1, 33], GeometryFault::Passes),
    ([1, 512, 2, 1, 25, 10, 500, 0], GeometryFault::TooFewBlocks),
    ([1, 66, 2, 1, 3, 10, 1, 32], GeometryFault::TooFewBlocks),
    ([1, 65, 2, 1, 2, 10, 1, 32], GeometryFault::TooFewBlocks),
    // a table of one word more
    (
        [1, 1000, 1048, 15, 8217, 10, 0, 0],
        GeometryFault::TooManyWords,
    ),
];

#[test]
fn each_number_has_its_limits(rt: HostRuntime) -> Result<(), Fail> {
    for numbers in ENDS {
        assert!(rt; geometry_of(numbers).is_ok(), "{numbers:?}");
    }
    for (numbers, fault) in BEYOND {
        assert!(rt; geometry_of(numbers) == Err(fault), "{numbers:?}");
    }
    Ok(())
}

#[test]
fn a_word_is_eight_bytes_least_first(rt: HostRuntime) -> Result<(), Fail> {
    let mut page = [0u8; 16];
    put_word(&mut page, 1, 0x0102_0304_0506_0708);
    assert!(rt; page == [0, 0, 0, 0, 0, 0, 0, 0, 8, 7, 6, 5, 4, 3, 2, 1]);
    assert!(rt; word_at(&page, 1) == 0x0102_0304_0506_0708);
    Ok(())
}
