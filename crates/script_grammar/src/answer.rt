// What the steps of a script answer.
use crate::ByteList;
use cache_model::Cause;

/// Why a step was not done.
#[derive(Clone, Copy, Debug, PartialEq, Eq)]
pub enum Refused {
    /// The number of the geometry that is outside: 1 is S, 2 is B, 3 is A, 4 is N, 5 is R, 6 is F and 7 is M.
    Geometry { number: u32 },
    TooManyWriters,
    TooManyFragments,
    /// The object's list of alternates would take so many bytes.
    VectorTooLarge { bytes: u64 },
    /// A fragment of the writer is gone.
    Lost { index: u32, cause: Cause },
    /// The writer takes no more bytes.
    Sealed,
    /// No numbers are left.
    Exhausted,
    /// The actor has a writer or a reader.
    Busy,
    /// The actor lacks the writer or the reader.
    Idle,
    /// The device has no switch.
    NoSwitch,
    /// The sync of this serial is written in parts.
    SyncRunning { serial: u64 },
    /// No sync is written in parts.
    NoSync,
    /// So many writers and readers are open.
    StillOpen { writers: u32, readers: u32 },
    /// So many blocks were copied into the next buffer.
    StillMoving { blocks: u32 },
}

#[derive(Debug, Drop)]
pub enum StepAnswer {
    Formatted {
        serial: u64,
        cursor: u64,
        floor: u64,
    },
    /// A put is whole, by `put` or by `close`.
    Put {
        put: u64,
        length: u64,
        fragments: u32,
    },
    Got {
        put: u64,
        length: u64,
        bytes: ByteList,
    },
    Miss(Cause),
    Broken(Cause),
    /// The reader follows the writer of this put.
    Follow {
        put: u64,
    },
    Writer {
        put: u64,
    },
    Took {
        count: u64,
    },
    Aborted {
        put: u64,
    },
    Hit {
        put: u64,
        length: u64,
    },
    Piece {
        index: u32,
        length: u32,
        bytes: ByteList,
    },
    End {
        length: u64,
    },
    /// The writer has cut so many pieces and not the next one.
    NotYet {
        cut: u32,
    },
    Done,
    Removed {
        put: u64,
    },
    Absent(Cause),
    Flushed {
        blocks: u32,
        cursor: u64,
        floor: u64,
        synced: Option<u64>,
    },
    /// The moment for pins is this.
    Now {
        moment: u64,
    },
    /// The switch was told which calls fail.
    Armed,
    /// A bit was turned.
    Flipped,
    /// The power was cut, and the session is over.
    Cut,
    /// `took` is there for a line that gives bytes: how many of them the writer took.
    Refused {
        why: Refused,
        took: Option<u64>,
    },
    /// The device refused a call; this is its count of faults.
    DeviceFault {
        count: u64,
        took: Option<u64>,
    },
}
