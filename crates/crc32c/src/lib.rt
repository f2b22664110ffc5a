//! CRC-32C, the check of iSCSI (RFC 3720), ext4 and Btrfs: a cyclic redundancy check by Castagnoli's polynomial.
#![tactic(auto)]

mod crc;
mod laws;
mod table;

pub use crc::{crc32c, extend};
