//! The codes that a call returns.

/// The call is done; of a search: the sector is empty.
pub const DONE: u32 = 0;
/// The page that was read has the sector's version; of a move: the version is the sector's.
pub const WRITTEN: u32 = 1;
/// The handle is closed.
pub const CLOSED: u32 = handles::CLOSED;
/// The map has no such sector.
pub const NO_SECTOR: u32 = 3;
/// The heap has no room.
pub const NO_MEMORY: u32 = 6;
/// The handle is open already.
pub const ALREADY_OPEN: u32 = 8;
/// The handle is of another kind: a map, or a reader.
pub const WRONG_KIND: u32 = 9;
/// A word can't name this page.
pub const NO_SUCH_BLOCK: u32 = 10;
/// A word has no room for so great a number.
pub const NO_NUMBER: u32 = 31;
/// An answer to no search.
pub const OUT_OF_ORDER: u32 = 32;
/// The page of the sector's version was read, and has no version that fits.
pub const UNREADABLE: u32 = 33;
/// The looks are used up.
pub const UNSETTLED: u32 = 36;
/// The search needs the page that is reported.
pub const READ_PAGE: u32 = 37;
/// A map has no sectors.
pub const BAD_SECTORS: u32 = 105;
/// A map's words name no page.
pub const BAD_PAGES: u32 = 103;
