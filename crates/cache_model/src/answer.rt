// What lookups and readers are answered.

use crate::cause::Cause;

/// What a lookup is answered.
#[derive(Clone, Copy, Debug, PartialEq, Eq)]
pub enum ReadAnswer {
    /// A stored alternate, by the number of its put.
    Hit { put: u64 },
    /// An open writer.
    Follow { put: u64 },
    Miss(Cause),
}

/// What a reader is answered when it asks for its next fragment.
#[derive(Clone, Copy, Debug, PartialEq, Eq)]
pub enum NextAnswer {
    /// A fragment, by its index from 1, of so many bytes.
    Gave { index: u32, length: u32 },
    /// All was given; the body has so many bytes.
    Ended { length: u64 },
    /// All of the fragments cut so far were given, and the writer is open.
    Waited { cut: u32 },
    Broke(Cause),
}
