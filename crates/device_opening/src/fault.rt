// Why a device does not open.
use device_reads::ReadFault;
use dir_segment::SegmentFault;
use reopening::OpenFault;
use std::alloc::AllocError;
use stripe_header::{CopyFault, Side, SpanFault};
use thiserror::Error;

/// Why a device does not open: the first fault of what was read, or why it was not read to the end.
#[derive(Debug, Drop, Error)]
pub enum OpeningFault {
    #[error("no stripe lies on the device: {0}")]
    BadSpan(SpanFault),
    #[error("neither copy of the directory is accepted: of copy A, {a}; of copy B, {b}")]
    NoCopy {
        a: CopyFault,
        b: CopyFault,
    },
    #[error("copy {side:?} is the newest, and segment {segment} of its directory is refused: {fault}")]
    BadDirectory {
        side: Side,
        segment: u32,
        fault: SegmentFault,
    },
    /// A read failed; this is the device's count of faults.
    #[error("a read of the device failed")]
    DeviceFault {
        count: u64,
    },
    #[error("out of memory")]
    Memory(AllocError),
}

impl From<ReadFault> for OpeningFault {
    ghost use Rattle.std.specs.Prelude.{◌≡◌};
    ghost use Rattle.device_opening.specs.Faults.{read_fault};

    ghost from_gives = { λ e f. f ≡ read_fault e };

    fn from(e: ReadFault) -> OpeningFault {
        match e {
            ReadFault::DeviceFault { count } => OpeningFault::DeviceFault { count },
            ReadFault::Memory(e) => OpeningFault::Memory(e),
        }
    }
}

impl From<OpenFault> for OpeningFault {
    ghost use Rattle.std.specs.Prelude.{◌≡◌};
    ghost use Rattle.device_opening.specs.Faults.{copies_fault};

    ghost from_gives = { λ e f. f ≡ copies_fault e };

    fn from(e: OpenFault) -> OpeningFault {
        match e {
            OpenFault::NoCopy { a, b } => OpeningFault::NoCopy { a, b },
            OpenFault::BadDirectory {
                side,
                segment,
                fault,
            } => OpeningFault::BadDirectory {
                side,
                segment,
                fault,
            },
            OpenFault::Memory(e) => OpeningFault::Memory(e),
        }
    }
}
