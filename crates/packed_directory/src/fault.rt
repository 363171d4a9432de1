// What is wrong with the bytes of a packed directory.
ghost use Rattle.std.specs.Prelude.{◌≡◌};

use dir_segment::SegmentFault;
use std::alloc::AllocError;
use thiserror::Error;

/// The first fault of an image, with the number of its segment.
#[derive(Debug, Drop, Error)]
pub enum ImageFault {
    #[error("segment {number}: {fault}")]
    Segment { number: u32, fault: SegmentFault },
    #[error("out of memory")]
    Memory(AllocError),
}

impl From<AllocError> for ImageFault {
    ghost use Rattle.packed_directory.specs.declared.fault.ImageFault.TheVariants as faults;

    ghost from_gives = { λ e f. f ≡ faults.Memory e };

    fn from(e: AllocError) -> ImageFault {
        ImageFault::Memory(e)
    }
}
