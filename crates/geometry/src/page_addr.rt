/// A page's address: its block, and its index in the block.
#[derive(Clone, Copy, Debug, PartialEq, Eq)]
pub struct PageAddr {
    pub block: u32,
    pub page: u32,
}
