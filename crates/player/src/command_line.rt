/// The LUNs if `--luns` is absent.
pub const LUNS: u32 = 1;
/// The blocks if `--blocks` is absent.
pub const BLOCKS: u32 = 64;
/// The pages of a block if `--pages` is absent.
pub const PAGES: u32 = 64;
/// The words of a page if `--words` is absent.
pub const WORDS: u32 = 64;
/// The sectors if `--sectors` is absent.
pub const SECTORS: u32 = 3072;
/// The erase cycles of a block if `--endurance` is absent.
pub const ENDURANCE: u32 = 1000;
/// The workers if `--workers` is absent: one thread plays the trace.
pub const WORKERS: u32 = 0;
/// The brooms if `--brooms` is absent.
pub const BROOMS: u32 = 0;
/// The tries of a write if `--patience` is absent.
pub const PATIENCE: u32 = 1_000_000;
/// The drains of a broom by one survey if `--drains` is absent.
pub const DRAINS: u32 = 1;

/// The options of the command line, by their names.
#[derive(Clone, Copy)]
pub struct Options<'a> {
    pub luns: u32,
    pub blocks: u32,
    pub pages: u32,
    pub words: u32,
    pub sectors: u32,
    pub endurance: u32,
    pub workers: u32,
    pub brooms: u32,
    pub patience: u32,
    pub drains: u32,
    /// The file for the wear of each block.
    pub wear: Option<&'a str>,
    /// The file for the collections, as they are made.
    pub collections: Option<&'a str>,
    /// Whether the answers are left out.
    pub quiet: bool,
    /// Whether a run that refused a write ends with a status of its own.
    pub all_written: bool,
}
