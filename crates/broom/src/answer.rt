//! What the calls of a broom return.

/// What a drain did.
#[derive(Clone, Copy, Debug, PartialEq, Eq)]
pub enum Drain {
    /// The block has no live page any more; `copied` pages were moved out of it.
    Drained { block: u32, copied: u32 },
    /// No block is closed, or the closed one with the fewest live pages is all live.
    NothingToGain,
    /// The broom has no block to copy to.
    NoSpare,
    /// The block's state has changed since the broom loaded it: another broom has claimed it, or a reader has come or gone.
    Lost,
    /// The broom has set a drained block aside, and the queue has no room for it. Only the drains of a turn return this.
    QueueFull,
}

/// What an erase did.
#[derive(Clone, Copy, Debug, PartialEq, Eq)]
pub enum Erase {
    /// Every word of the block is all ones, and its next generation has begun. If the broom had no spare, it keeps the block as its spare (`kept`);
    /// otherwise the block is free.
    Erased { block: u32, kept: bool },
    /// It was the block's last erase. The block is never used again.
    Retired { block: u32 },
    /// The block has readers, or its word changed during the call.
    Pinned,
    /// The block isn't drained.
    Stale,
    /// No drained block is set aside, and the queue is empty. Only `erase_one` returns this.
    QueueEmpty,
}
