//! The codes that a call returns.

/// The call is done; of a sector: no page has a version of it.
pub const DONE: u32 = 0;
/// A page has the newest version of the sector.
pub const WRITTEN: u32 = 1;
/// The handle is closed.
pub const CLOSED: u32 = handles::CLOSED;
/// The device has no such sector.
pub const NO_SECTOR: u32 = 3;
/// The heap has no room for the device.
pub const NO_MEMORY: u32 = 6;
/// No block can be freed.
pub const NO_BLOCK: u32 = 7;
/// The handle is open already.
pub const ALREADY_OPEN: u32 = 8;
/// The handle is of another kind: a mount under way, or a mounted layer.
pub const WRONG_KIND: u32 = 9;
/// A command has failed, and no block was in reserve: the device is only read.
pub const EXHAUSTED: u32 = 27;
/// The power is gone.
pub const POWER_GONE: u32 = 28;
/// A stamp is not of this device.
pub const OTHER_DEVICE: u32 = 30;
/// The numbers of versions have run out.
pub const NO_NUMBER: u32 = 31;
/// A call out of its order: a note after the last page, a finish before it, or a command that succeeded but was not handed out.
pub const OUT_OF_ORDER: u32 = 32;
/// The sectors leave no room to collect.
pub const TOO_FEW_BLOCKS: u32 = 109;
