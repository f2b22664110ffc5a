//! What a device reports of itself, in structs of C.

/// The pages programmed for writes, the pages relocated and the erase commands.
#[repr(C)]
#[derive(Clone, Copy, Debug, PartialEq, Eq)]
pub struct Totals {
    pub programs: u64,
    pub copies: u64,
    pub erases: u64,
}

/// A block: its erase commands, its live pages, and 1 if it is retired.
#[repr(C)]
#[derive(Clone, Copy, Debug, PartialEq, Eq)]
pub struct BlockReport {
    pub erases: u32,
    pub live: u32,
    pub retired: u32,
}

/// The numbers that a device was made with.
#[repr(C)]
#[derive(Clone, Copy, Debug, PartialEq, Eq)]
pub struct NumbersReport {
    pub luns: u32,
    pub blocks: u32,
    pub pages: u32,
    pub words: u32,
    pub sectors: u32,
    pub endurance: u32,
    pub hosts: u32,
    pub brooms: u32,
}

/// The address of a held page: its block, and the generation of the block.
#[repr(C)]
#[derive(Clone, Copy, Debug, PartialEq, Eq)]
pub struct PageReport {
    pub block: u32,
    pub generation: u32,
}

/// What a drain reports, before it is handed to C: the block that it drained, and how many pages moved.
#[derive(Clone, Copy, Debug, PartialEq, Eq)]
pub(crate) struct Drained {
    pub(crate) block: u32,
    pub(crate) moved: u32,
}

/// A block: its phase, the hosts that read it, the pages that are written since its last erase, and its erases.
#[repr(C)]
#[derive(Clone, Copy, Debug, PartialEq, Eq)]
pub struct StateReport {
    pub phase: u32,
    pub readers: u32,
    pub written: u32,
    pub erases: u32,
}

/// What a broom has done since its open: the pages that it programmed for copies, those of them that became their sectors' pages, and the blocks
/// that it erased. Each count is modulo 2^64.
#[repr(C)]
#[derive(Clone, Copy, Debug, PartialEq, Eq)]
pub struct TallyReport {
    pub programs: u64,
    pub moved: u64,
    pub erases: u64,
}

/// All erases, the blocks in each phase, and 1 if the broom that counts has a spare.
#[repr(C)]
#[derive(Clone, Copy, Debug, PartialEq, Eq)]
pub struct CountsReport {
    pub erases: u64,
    pub free: u32,
    pub open: u32,
    pub closed: u32,
    pub victims: u32,
    pub drained: u32,
    pub erasing: u32,
    pub retired: u32,
    pub spares: u32,
}
