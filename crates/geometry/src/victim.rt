ghost use Rattle.std.specs.Prelude.{◌≡◌, ℕ, ◌<◌, length, IfSome, IfNone};
ghost use Rattle.geometry.specs.Greedy.{greedy_of, IsClosed, IsGreedy, is_better_than};

/// The block to collect: of the closed blocks the one with the smallest count, and the lowest of several. The counts and the marks are in the order
/// of the blocks.
pub fn greedy(counts: &[u32], closed: &[bool]) -> Option<usize>
    requires { length counts.now ≡ length closed.now }
    ensures value { result ≡ greedy_of counts.now closed.now }
    ensures best { IfSome result (IsGreedy counts.now closed.now) }
    ensures none { IfNone result ((k : ℕ) → ¬ (IsClosed closed.now k)) }
{
    let mut best = None;
    for i in 0..counts.len() {
        if closed[i] && is_better(counts, i, best) {
            best = Some(i);
        }
    }
    best
}

// Whether a block's count is below that of the best so far, or there is none.
fn is_better(counts: &[u32], i: usize, best: Option<usize>) -> bool
    requires place { i < length counts.now }
    requires within { IfSome best (λ b. b < length counts.now) }
    ensures { result ≡ is_better_than counts.now i best }
{
    match best {
        None => true,
        Some(b) => counts[i] < counts[b],
    }
}
