ghost use Rattle.std.specs.Prelude.{◌≡◌, ℕ, ◌≢◌, ◌+◌, ◌<◌, ◌≤◌, length, slice_index, false};
ghost use Rattle.ftl_one.specs.Collections.{IsFewest, IsLeast, IsFirst};

/// How many counts are looked at together.
const LANES: usize = 16;

/// The block with the smallest count except the one that is left out, and the lowest of several.
pub(crate) fn fewest_beside(counts: &[u16], left_out: usize) -> usize
    requires left_out { left_out < length counts.now }
    requires others { 2 ≤ length counts.now }
    ensures { IsFewest counts.now left_out result }
{
    let below = &counts[..left_out];
    let above = &counts[left_out + 1..];
    let least = least_of(below).min(least_of(above));
    let place = first_of(below, least);
    if place < below.len() {
        return place;
    }
    left_out + 1 + first_of(above, least)
}

// The smallest count, or the largest number if there is none.
fn least_of(counts: &[u16]) -> u16
    ensures { IsLeast counts.now (length counts.now) result }
{
    let mut least = u16::MAX;
    for i in 0..counts.len() {
        least = least.min(counts[i]);
    }
    least
}

// The first place of a count, or the length if there is none.
fn first_of(counts: &[u16], count: u16) -> usize
    ensures { IsFirst counts.now count result }
{
    let mut at = 0;
    while LANES <= counts.len() - at && !stands_within(counts, at, count) {
        at += LANES;
    }
    while at < counts.len() && counts[at] != count {
        at += 1;
    }
    at
}

// Whether a count is at one of the next places. All are compared, by vector instructions.
#[inline(always)]
fn stands_within(counts: &[u16], at: usize, count: u16) -> bool
    requires { at + LANES ≤ length counts.now }
    ensures { result ≡ false → (k : ℕ) → at ≤ k
        → k < at + LANES → slice_index counts.now k ≢ count }
{
    let mut found = false;
    for i in 0..LANES {
        found |= counts[at + i] == count;
    }
    found
}
