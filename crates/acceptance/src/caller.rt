ghost use Rattle.std.specs.Prelude.{◌≡◌, ◌<◌, length, OnSome};
ghost use Rattle.geometry.specs.Geometry.{hosts_of, page_bytes_of, sectors_of};

use ftl_one::OneFtl;
use geometry::Geometry;
use std::alloc::Global;
use std::test::Fail;

// What was written to sector 0 is read back, although sector 1 was overwritten and trimmed in between.
fn reads_back(alloc: Global, geometry: &Geometry, page: &[u8], buffer: &mut [u8]) -> Option<()>
    requires one_thread { hosts_of geometry.now ≡ 0 }
    requires sectors { 1 < sectors_of geometry.now }
    requires page { length page.now ≡ page_bytes_of geometry.now }
    requires buffer { length buffer.old ≡ page_bytes_of geometry.now }
    ensures { OnSome result (buffer.new ≡ page.now) }
{
    let Ok(mut ftl) = OneFtl::new(alloc, geometry) else {
        return None;
    };
    let Ok(_) = ftl.write(0, page) else {
        return None;
    };
    let Ok(_) = ftl.write(1, buffer) else {
        return None;
    };
    ftl.trim(1);
    ftl.read(0, buffer);
    Some(())
}

#[test]
fn a_written_sector_reads_back(rt: HostRuntime) -> Result<(), Fail> {
    let geometry = Geometry::new(1, 3, 2, 1, 3, 10, 0, 0)?;
    assert!(rt; geometry.hosts() == 0);
    assert!(rt; geometry.page_bytes() == 8);
    assert!(rt; geometry.sectors() > 1);
    let mut buffer = [0u8; 8];
    let done = reads_back(rt.alloc(), &geometry, b"eight by".as_slice(), &mut buffer);
    assert!(rt; done.is_some());
    assert!(rt; buffer == *b"eight by");
    Ok(())
}
