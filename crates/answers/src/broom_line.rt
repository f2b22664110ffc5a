/// What the log of a run by workers has for one broom: its number, and what it did. Each count is modulo 2^64.
#[derive(Clone, Copy, Debug, PartialEq, Eq)]
pub struct BroomLine {
    pub broom: u64,
    /// The blocks that it drained, the pages that it moved, and the pages that it programmed for copies.
    pub drained: u64,
    pub moved: u64,
    pub programmed: u64,
    /// The blocks that it erased; of these the ones that it kept, and the ones that were retired.
    pub erased: u64,
    pub kept: u64,
    pub retired: u64,
    /// Its claims that failed.
    pub lost: u64,
    /// The blocks that it did not erase, since they had readers or weren't drained.
    pub pinned: u64,
    pub stale: u64,
    /// Its turns with nothing to gain: surveys that showed no block to drain.
    pub idle: u64,
}
