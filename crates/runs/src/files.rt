use answers::OutputFailed;
use streams::Watched;

/// The files that a run writes in addition to its answers.
#[derive(Drop)]
pub struct RunFiles<F> {
    /// The collections, as they are made.
    pub collections: Watched<F>,
    /// The wear of each block after the run.
    pub wear: Watched<F>,
}

/// What a run is to write.
#[derive(Clone, Copy, Debug, PartialEq, Eq)]
pub struct Wanted {
    /// The answers. Without them the output is the last line.
    pub answers: bool,
    pub collections: bool,
    pub wear: bool,
}

/// How workers play a trace, and what their run is to write. Workers write no wear.
#[derive(Clone, Copy, Debug, PartialEq, Eq)]
pub struct RunOptions {
    /// The most tries of a write that finds no block.
    pub patience: u32,
    /// The most blocks that a broom drains by one survey.
    pub drains: u32,
    /// The answers. Without them the output is the last line.
    pub answers: bool,
    /// What each broom has done.
    pub log: bool,
}

/// How many writes a run by one thread refused because its device was worn, and whether each wanted file was written whole. `Ok` if it
/// isn't wanted.
#[derive(Clone, Copy, Debug, PartialEq, Eq)]
pub struct Written {
    pub refused: u64,
    pub collections: Result<(), OutputFailed>,
    pub wear: Result<(), OutputFailed>,
}
