// The steps that the lines of a script ask for.
ghost use Rattle.std.specs.Prelude.{◌≡◌};

use alternate_vector::Fields;
use device_log::CutChoice;
use std::marker::Model;
use tape_base::Key;

/// Bytes that a step or an answer holds.
#[derive(Debug, Drop)]
pub struct ByteList {
    bytes: Vec<u8>,
}

impl Model for ByteList {
    ghost use Rattle.std.specs.Prelude.{List, ℕ};

    ghost Value = { List ℕ };

    ghost view = { λ b. b.bytes.items };
}

impl ByteList {
    pub fn new(bytes: Vec<u8>) -> ByteList
        ensures { result ≡ bytes.items }
    {
        ByteList { bytes }
    }

    pub fn bytes(&self) -> &[u8]
        ensures { result.now ≡ self.now }
    {
        &self.bytes
    }
}

#[derive(Debug, Drop)]
pub enum Step {
    /// Formats a device anew. The numbers are those of a geometry, not yet checked.
    Format {
        name: ByteList,
        segments: u32,
        buckets: u32,
        content: u64,
        agg: u32,
        reach: u64,
        fragment: u32,
        generation: u64,
        alternates: u32,
    },
    /// Stores a body at once.
    Put {
        object: Key,
        body: ByteList,
        request: Fields,
        response: Fields,
    },
    /// Reads a whole body at once.
    Get {
        object: Key,
        request: Fields,
    },
    /// Opens a writer for an actor. The object is kept past the floor until `pin`.
    OpenWrite {
        actor: ByteList,
        object: Key,
        pin: u64,
        request: Fields,
        response: Fields,
    },
    /// Gives bytes to the actor's writer.
    Feed {
        actor: ByteList,
        body: ByteList,
    },
    Close {
        actor: ByteList,
    },
    Abort {
        actor: ByteList,
    },
    /// Opens a reader for an actor.
    OpenRead {
        actor: ByteList,
        object: Key,
        request: Fields,
    },
    /// Reads the actor's next piece.
    Next {
        actor: ByteList,
    },
    Done {
        actor: ByteList,
    },
    Remove {
        object: Key,
    },
    Flush,
    /// Sets the moment that a flush weighs pins by. It may also fall.
    Now {
        moment: u64,
    },
    /// The nth read, write or sync of the device from now on fails.
    Fail {
        nth: u64,
    },
    /// So many reads, writes and syncs of the device pass, and all later ones fail until a cut.
    StopAfter {
        calls: u64,
    },
    /// Turns the lowest bit of one byte of the block of a place.
    Flip {
        place: u64,
        byte: u32,
    },
    /// Cuts the power of the device, which ends the session. The device stays at hand.
    Cut {
        choice: CutChoice,
    },
}
