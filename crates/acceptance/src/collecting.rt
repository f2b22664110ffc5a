use geometry::PageAddr;
use packed_map::PackedMap;
use std::test::Fail;
use victims::Victims;

// Blocks of two pages that keep 2, 0 and 1 of them.
#[test]
fn the_victim_is_the_block_with_the_fewest_kept_pages(rt: HostRuntime) -> Result<(), Fail> {
    let alloc = rt.alloc();
    let kept = vec![in alloc; 2u16, 0, 1]?;
    let erases = vec![in alloc; 5u32, 9, 7]?;
    let mut victims = Victims::new(alloc, 2, kept, erases)?;
    assert!(rt; (victims.victim(), victims.spare(), victims.spares()) == (Some(1), Some(1), 1));
    victims.erased(1);
    victims.exclude(1);
    assert!(rt; (victims.victim(), victims.spare(), victims.spares()) == (Some(2), None, 0));
    assert!(rt; (victims.is_eligible(1), victims.erases(1)) == (false, 10));
    victims.release(2);
    victims.keep(1);
    assert!(rt; (victims.victim(), victims.spare(), victims.spares()) == (Some(2), Some(2), 1));
    victims.include(1);
    victims.exclude(2);
    assert!(rt; (victims.victim(), victims.kept(1), victims.spares()) == (Some(1), 1, 0));
    Ok(())
}

// Which of several is promised by no clause.
#[test]
fn of_blocks_with_equal_counts_the_least_erased_is_chosen(rt: HostRuntime) -> Result<(), Fail> {
    let alloc = rt.alloc();
    let kept = vec![in alloc; 1u16, 1, 1, 1]?;
    let erases = vec![in alloc; 5u32, 3, 2, 4]?;
    let mut victims = Victims::new(alloc, 2, kept, erases)?;
    assert!(rt; victims.victim() == Some(2));
    victims.keep(2);
    assert!(rt; victims.victim() == Some(1));
    Ok(())
}

// The entries of the last two have more than 32 bits.
#[test]
fn a_packed_map_returns_what_was_set(rt: HostRuntime) -> Result<(), Fail> {
    let mut map = PackedMap::new(rt.alloc(), 3000)?;
    let first = Some(PageAddr { block: 0, page: 0 });
    let low = Some(PageAddr {
        block: 262_143,
        page: 16_382,
    });
    let high = Some(PageAddr {
        block: 262_143,
        page: 16_383,
    });
    let last = Some(PageAddr {
        block: 4_294_967_295,
        page: 4_294_967_294,
    });
    map.set(0, first);
    map.set(255, low);
    map.set(256, high);
    map.set(2999, last);
    assert!(rt;
        (map.get(0), map.get(255), map.get(256), map.get(2999)) == (first, low, high, last)
    );
    assert!(rt; (map.get(1), map.get(257), map.get(2998)) == (None, None, None));
    map.set(256, None);
    assert!(rt; (map.get(255), map.get(256), map.get(2999)) == (low, None, last));
    Ok(())
}
