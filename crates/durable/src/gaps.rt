ghost use Rattle.std.specs.Prelude.{◌≡◌, ◌<◌, ◌≤◌, ◌+◌, ◌^◌, length, slice_index_or};
ghost use Rattle.durable.specs.Losses.{gaps_noted, has_found, losses_in, versions_noted};
ghost use Rattle.durable.specs.Losses.{has_gap as has_counted_gap};

use crate::found::{Found, Stamp};
use geometry::PageAddr;

/// Whether a gap was counted in the block: a page without a version before one with a version.
pub fn has_gap(gaps: &[u32], block: u32) -> bool
    ensures { result ≡ has_counted_gap gaps.now block }
{
    (block as usize) < gaps.len() && gaps[block as usize] > 0
}

/// Counts the gaps of a block with this page more, of which so many before it have versions.
pub fn count_gaps(gaps: &mut Vec<u32>, versions: &mut u32, at: PageAddr, stamp: Option<Stamp>)
    requires block { at.block < length gaps.old.items }
    requires page { versions.old ≤ at.page }
    requires few { at.page + 1 < 2 ^ 32 }
    ensures gaps { gaps.new.items ≡ gaps_noted gaps.old.items at.block at.page versions.old stamp }
    ensures versions { versions.new ≡ versions_noted versions.old stamp }
{
    if stamp.is_some() {
        gaps[at.block as usize] = at.page - *versions;
        *versions += 1;
    }
}

/// How many gaps there are in blocks that have a page that was found.
pub fn losses(found: &Found, gaps: &[u32]) -> u64
    requires { length gaps.now < 2 ^ 32 }
    ensures { result ≡ losses_in found.now.items gaps.now (length gaps.now) }
{
    let mut losses = 0;
    for block in 0..gaps.len() as u32 {
        if gaps[block as usize] > 0 && has_page(found, block) {
            losses += u64::from(gaps[block as usize]);
        }
    }
    losses
}

// Whether the block has a page that was found.
fn has_page(found: &Found, block: u32) -> bool
    ensures { result ≡ has_found block found.now.items }
{
    for i in 0..found.len() {
        if let Some(x) = found.get(i) {
            if x.at.block == block {
                return true;
            }
        }
    }
    false
}
