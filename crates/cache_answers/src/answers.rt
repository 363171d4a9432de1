// What the calls of a cache answer, and why they do less.

use cache_model::Cause;
use std::alloc::AllocError;
use thiserror::Error;

/// Why a call did less than it was asked.
#[derive(Clone, Copy, Debug, PartialEq, Eq, Error)]
pub enum Refusal {
    #[error("as many writers are open as may be")]
    TooManyWriters,
    #[error("the put would have more fragments than may be")]
    TooManyFragments,
    #[error("the vector of the new alternate alone would have {bytes} bytes")]
    VectorTooLarge { bytes: u64 },
    #[error("fragment {index} is not live any more")]
    Lost { index: u32, cause: Cause },
    /// Its count of faults then stood at `count`.
    #[error("the device refused a call")]
    DeviceFault { count: u64 },
    #[error("the writer was closed in vain, and takes no more bytes")]
    Sealed,
    #[error("{number} would reach the limit of places or numbers")]
    Exhausted { number: u64 },
    #[error("no writer of that put is open")]
    NoSuchWriter,
    #[error("out of memory")]
    Memory(AllocError),
}

impl From<AllocError> for Refusal {
    ghost use Rattle.std.specs.Prelude.{◌≡◌};
    ghost use Rattle.cache_answers.specs.declared.answers.Refusal.TheVariants.{Memory};

    ghost from_gives = { λ e refusal. refusal ≡ Memory e };

    fn from(e: AllocError) -> Refusal {
        Refusal::Memory(e)
    }
}

/// What came of a put that was closed.
#[derive(Clone, Copy, Debug, PartialEq, Eq)]
pub struct Receipt {
    pub put: u64,
    /// The bytes of its body.
    pub length: u64,
    pub fragments: u32,
}

/// What came of a removal.
#[derive(Clone, Copy, Debug, PartialEq, Eq)]
pub enum Removal {
    /// The object of this put was removed.
    Removed { put: u64 },
    /// There was none, for this cause.
    Absent(Cause),
}

/// The buffer that was written out, and the one that began.
#[derive(Clone, Copy, Debug, PartialEq, Eq)]
pub struct Flushed {
    /// How many blocks were written.
    pub blocks: u32,
    /// Where the buffer begins now.
    pub cursor: u64,
    /// The least place that may be read now.
    pub floor: u64,
}

/// What came of a lookup, with a reader of this type.
#[derive(Debug, Drop)]
pub enum Opened<R> {
    /// A stored alternate, whose body has so many bytes.
    Hit { reader: R, put: u64, length: u64 },
    /// An open writer, which the reader follows.
    Follow { reader: R, put: u64 },
    /// There is nothing to read, for this cause.
    Miss(Cause),
}

/// What a reader is given.
#[derive(Clone, Copy, Debug, PartialEq, Eq)]
pub enum NextPiece {
    /// A fragment, by its index from 1, of so many bytes.
    Piece { index: u32, length: u32 },
    /// All was given; the body has so many bytes.
    End { length: u64 },
    /// All of the fragments cut so far were given, and the writer is open.
    NotYet { cut: u32 },
    Broken(Cause),
}

/// What the switch of a cache's device is told.
#[derive(Clone, Copy, Debug, PartialEq, Eq)]
pub enum SwitchOrder {
    /// The nth read, write or sync from now on fails, or the first one for 0.
    Fail { nth: u64 },
    /// So many reads, writes and syncs pass, and all later ones fail until a cut.
    StopAfter { calls: u64 },
    /// The lowest bit of one byte of the block of a place is turned: of its last byte from 511 on.
    Flip { place: u64, byte: u32 },
}
