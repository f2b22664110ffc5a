/// A collection: its victim's live pages are copied into the spare, and the victim is erased.
#[derive(Clone, Copy, Debug, PartialEq, Eq)]
pub struct Collection {
    /// The block that is erased.
    pub victim: u32,
    /// The number of its live pages; each of them is copied.
    pub copied: u32,
    /// How many of the copies are copybacks within one LUN.
    pub copybacks: u32,
    /// The victim's erase commands, including this one.
    pub erases: u32,
    /// Whether the erase fails, which retires the victim.
    pub retired: bool,
}
