//! Marks of sectors, a bit for each.
ghost use Rattle.std.specs.Prelude.{◌≡◌, ◌≢◌, ◌<◌, ◌≤◌, ◌*◌, ◌/◌, ℕ, length, true, IfSome};
ghost use Rattle.durable.specs.Marks.{is_valued, IsMarkedWith, MarksAll};
ghost use Rattle.durable.specs.Updates.{LiesWithin};

use crate::extent::Extent;
use crate::found::Stamp;

/// Whether a sector is marked.
#[tactic(auto, unfolding(crate::specs::Marks::is_valued))]
pub fn has_mark(marks: &[u64], sector: usize) -> bool
    requires { sector < length marks.now * 64 }
    ensures { result ≡ is_valued marks.now sector }
{
    (marks[sector / 64] >> (sector % 64)) & 1 == 1
}

/// Marks the sectors that a stamp is of, unless it is that of a trim.
pub fn mark_values(marks: &mut Vec<u64>, stamp: Option<Stamp>)
    requires { IfSome stamp (λ s. LiesWithin (length marks.old.items * 64) s.extent) }
    ensures marks { IsMarkedWith marks.old.items marks.new.items stamp }
    ensures size { length marks.new.items ≡ length marks.old.items }
{
    if let Some(stamp) = stamp {
        if !stamp.is_trim {
            mark_each(marks, stamp.extent);
        }
    }
}

// Marks each sector of an extent.
fn mark_each(marks: &mut Vec<u64>, extent: Extent)
    requires { LiesWithin (length marks.old.items * 64) extent }
    ensures { MarksAll marks.old.items marks.new.items extent }
{
    let first = extent.first as usize;
    for sector in first..first + extent.count as usize {
        mark(marks, sector);
    }
}

// Marks a sector.
fn mark(marks: &mut Vec<u64>, sector: usize)
    requires { sector < length marks.old.items * 64 }
    ensures size { length marks.new.items ≡ length marks.old.items }
    ensures here { is_valued marks.new.items sector ≡ true }
    ensures others { (s : ℕ) → s ≢ sector
        → is_valued marks.new.items s ≡ is_valued marks.old.items s }
{
    marks[sector / 64] |= 1 << (sector % 64);
}
