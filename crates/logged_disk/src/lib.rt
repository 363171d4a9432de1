//! Block devices that tell what their calls did.
#![tactic(auto)]

mod blocks;
mod device;
mod file_disk;
mod mem_disk;
mod pending_block;
mod switch;

pub use device::{Disk, PowerDisk};
pub use file_disk::{FileDisk, FileStart, device_bytes};
pub use mem_disk::MemDisk;

/// How many bytes a block has.
pub const BLOCK_BYTES: usize = 512;
