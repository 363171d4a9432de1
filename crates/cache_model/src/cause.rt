// Why a lookup or a reader is given nothing.

use tape_base::Digest;

/// Why there is nothing to give.
#[derive(Clone, Copy, Debug, PartialEq, Eq)]
pub enum Cause {
    /// Nothing was put under the key in this session.
    NeverPut,
    /// The key's last vector was removed.
    Removed,
    /// The piece stands below the floor. It is unsaved where it was to be copied ahead and was not.
    Passed {
        place: u64,
        floor: u64,
        unsaved: bool,
    },
    /// The key's vector is live, and none of so many alternates matches.
    NoMatch {
        count: u32,
    },
    /// The piece's entry was purged from a segment that had so many live pieces.
    Displaced {
        segment: u32,
        live: u64,
    },
    /// A writer gave up: the key's last one that did, where nothing of the key was committed or removed, or
    /// the one that a reader follows. It is told by the number of its put.
    Aborted {
        writer: u64,
    },
    /// The device refused a call, and its count of faults then stood at `count`.
    DeviceFault {
        count: u64,
    },
    /// No record of this session speaks of it, which began by the opening of this serial.
    BeforeOpening {
        serial: u64,
    },
    /// No record that was kept speaks of it, and so many puts were forgotten.
    Unrecorded {
        dropped: u64,
    },
    /// The bytes at the piece's place do not have the digest that was kept.
    Damaged {
        place: u64,
        kept: Digest,
        found: Digest,
    },
}
