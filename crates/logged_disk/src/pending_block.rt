// What a memory device keeps of a block that is pending.
use crate::BLOCK_BYTES;

/// Of a block that was written since the last sync, what was there before, and where the last write
/// over it began.
#[derive(Clone, Copy, Drop)]
pub struct PendingBlock {
    pub kept: [u8; BLOCK_BYTES],
    pub start: u64,
}
