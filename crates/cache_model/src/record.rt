// The records of a chronicle: what each step did.

use crate::answer::ReadAnswer;
use crate::cause::Cause;
use crate::findings::FoundList;
use alternate_vector::{Fields, Vector};
use tape_base::{Actor, Digest, Geometry, Key, PieceId};

/// One record of a chronicle. Places and blocks count 512-byte blocks, lengths count bytes.
#[derive(Debug, Drop)]
pub enum Rec {
    /// A session begins on an empty device.
    Formatted {
        geometry: Geometry,
    },
    /// A session begins on a device that an earlier one left, by a copy of its directory.
    Opened {
        geometry: Geometry,
        serial: u64,
        cursor: u64,
        floor: u64,
        next_put: u64,
        clean: bool,
        list: FoundList,
    },
    /// A buffer begins.
    Began {
        cursor: u64,
        floor: u64,
    },
    /// A new piece is in the buffer. The digest is that of its document.
    Placed {
        piece: PieceId,
        place: u64,
        blocks: u32,
        digest: Digest,
        pin: u64,
    },
    /// A piece was copied ahead of the cursor. The digest is that of the copy.
    Moved {
        piece: PieceId,
        from: u64,
        place: u64,
        digest: Digest,
    },
    /// A piece that was to be copied ahead stays where it is: there was no room for it, or the device
    /// refused to give it.
    Unsaved {
        piece: PieceId,
        place: u64,
        fault: bool,
    },
    /// A piece's entry was purged, for the piece that is placed next.
    Displaced {
        piece: PieceId,
        segment: u32,
        live: u64,
    },
    /// Bytes that were read for a piece are not its own.
    Damaged {
        piece: PieceId,
        place: u64,
        kept: Digest,
        found: Digest,
    },
    /// A writer opens.
    WriteOpened {
        actor: Actor,
        put: u64,
        key: Key,
        request: Fields,
        response: Fields,
        pin: u64,
    },
    /// A fragment is cut; that it is placed follows. The digest is that of its bytes.
    Cut {
        put: u64,
        index: u32,
        length: u32,
        digest: Digest,
    },
    /// A put is complete: its vector is the piece placed last, and lists these alternates.
    Committed {
        put: u64,
        key: Key,
        length: u64,
        alternates: Vector,
    },
    /// A writer gave up, or was given up.
    Aborted {
        put: u64,
        key: Key,
    },
    /// An object was removed; the put is that of its vector.
    Removed {
        put: u64,
        key: Key,
    },
    /// A lookup, with its answer. It opens a reader where that is no miss.
    ReadOpened {
        reader: u64,
        actor: Actor,
        key: Key,
        request: Fields,
        answer: ReadAnswer,
    },
    /// A fragment was given to a reader.
    Gave {
        reader: u64,
        index: u32,
        length: u32,
    },
    /// A reader was told that all was given.
    Ended {
        reader: u64,
        length: u64,
    },
    /// A reader was told to wait.
    Waited {
        reader: u64,
        cut: u32,
    },
    /// A reader was told that it cannot go on.
    Broke {
        reader: u64,
        cause: Cause,
    },
    /// A reader was closed.
    ReadClosed {
        reader: u64,
    },
    /// A sync takes its image of the directory. A clean one promises that nothing is placed before a sync
    /// that is not clean has finished; one in parts is written by later calls. The cursor is that of the
    /// buffer behind it.
    SyncBegun {
        serial: u64,
        cursor: u64,
        clean: bool,
        in_parts: bool,
    },
    /// The copy of a sync stands, and no cut takes it back.
    SyncDone {
        serial: u64,
    },
    /// The device refused a call, and its count of faults then stood at `count`.
    Fault {
        count: u64,
    },
}
