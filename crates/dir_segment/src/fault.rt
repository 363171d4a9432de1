// What is wrong with the bytes of a segment.
use std::alloc::AllocError;
use thiserror::Error;

/// The first fault of an image, by the slot at which a walk met it.
#[derive(Debug, Drop, Error)]
pub enum SegmentFault {
    #[error("a link leads to slot {slot}, which may not stand there")]
    BadLink { slot: u32 },
    #[error("slot {slot} is reached twice")]
    Loop { slot: u32 },
    /// Of the free slots, or of all slots.
    #[error("the image counts {kept} slots, and {found} are reached")]
    FreeListCount { kept: u32, found: u32 },
    #[error("out of memory")]
    Memory(AllocError),
}

impl From<AllocError> for SegmentFault {
    ghost use Rattle.std.specs.Prelude.{◌≡◌};
    ghost use Rattle.dir_segment.specs.declared.fault.SegmentFault.TheVariants as faults;

    ghost from_gives = { λ e f. f ≡ faults.Memory e };

    fn from(e: AllocError) -> SegmentFault {
        SegmentFault::Memory(e)
    }
}
