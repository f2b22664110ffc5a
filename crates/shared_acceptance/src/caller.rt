use crate::closing::has;
use geometry::Geometry;
use std::test::Fail;
use uses::two_writers;
use volume::Volume;

#[test]
fn two_passes_write_and_both_values_stay(rt: HostRuntime) -> Result<(), Fail> {
    let geometry = Geometry::new(1, 5, 2, 1, 2, 10, 2, 0)?;
    assert!(rt; geometry.hosts() == 2 && geometry.brooms() == 0);
    assert!(rt; geometry.sectors() == 2 && geometry.page_bytes() == 8);
    let (volume, passes, brooms) = Volume::open(rt.alloc(), &geometry)?;
    brooms.destroy_empty();
    match two_writers(
        rt.alloc(),
        volume,
        passes,
        b"eight by".as_slice(),
        b"another!".as_slice(),
    ) {
        Ok(closed) => {
            assert!(rt; has(&closed.sectors, 0, b"eight by".as_slice()));
            assert!(rt; has(&closed.sectors, 1, b"another!".as_slice()));
        }
        Err((_volume, _passes)) => panic!(rt; "there is room for two writes"),
    }
    Ok(())
}
