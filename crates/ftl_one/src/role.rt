/// What a block is to the layer.
#[derive(Clone, Copy, Debug, PartialEq, Eq)]
pub enum Role {
    /// Erased and never used yet.
    Free,
    /// Its next page is the next to be programmed.
    Open,
    /// All its pages are programmed.
    Closed,
    /// Erased and kept for a collection.
    Spare,
    /// Its last erase has failed.
    Retired,
}
