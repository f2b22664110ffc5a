ghost use Rattle.std.specs.Prelude.{◌≡◌, ◌≢◌, ◌+◌, ◌*◌, ◌≤◌, length};
ghost use Rattle.die.specs.Storage.{slot, PutsSlot};

/// Copies the page at an index out of the bytes of all pages.
pub(crate) fn get_page(bytes: &[u8], place: usize, out: &mut [u8])
    requires { (place + 1) * length out.old ≤ length bytes.now }
    ensures { out.new ≡ slot (length out.old) bytes.now place }
{
    let start = place * out.len();
    out.copy_from_slice(&bytes[start..start + out.len()]);
}

/// The page at an index, among the bytes of all pages.
pub(crate) fn lend_page(bytes: &[u8], page_bytes: usize, place: usize) -> &[u8]
    requires { (place + 1) * page_bytes ≤ length bytes.now }
    ensures value { result.now ≡ slot page_bytes bytes.now place }
    ensures size { length result.now ≡ page_bytes }
{
    let start = place * page_bytes;
    &bytes[start..start + page_bytes]
}

/// Copies a page to an index, among the bytes of all pages.
pub(crate) fn put_page(bytes: &mut [u8], place: usize, page: &[u8])
    requires { (place + 1) * length page.now ≤ length bytes.old }
    ensures { PutsSlot (length page.now) bytes.old bytes.new place page.now }
{
    let start = place * page.len();
    bytes[start..start + page.len()].copy_from_slice(page);
}

/// Copies a page from one index to another, among the bytes of all pages.
pub(crate) fn move_page(bytes: &mut [u8], page_bytes: usize, from: usize, to: usize)
    requires from_within { (from + 1) * page_bytes ≤ length bytes.old }
    requires to_within { (to + 1) * page_bytes ≤ length bytes.old }
    requires apart { from ≢ to }
    ensures { PutsSlot page_bytes bytes.old bytes.new to (slot page_bytes bytes.old from) }
{
    if from < to {
        let (below, above) = bytes.split_at_mut(to * page_bytes);
        get_page(below, from, &mut above[..page_bytes]);
    } else {
        let (below, above) = bytes.split_at_mut(from * page_bytes);
        put_page(below, to, &above[..page_bytes]);
    }
}
