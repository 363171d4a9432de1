//! What a racing read is asked for, and what it answers.
use tape_base::Digest;

/// Where a document stood when a turn looked it up, and the digest by which it is recorded.
#[derive(Clone, Copy, Debug, PartialEq, Eq)]
pub struct Ticket {
    /// Where it begins on the endless tape.
    pub place: u64,
    /// Its first block on the device.
    pub block: u64,
    /// How many bytes its payload has.
    pub length: u32,
    pub digest: Digest,
}

/// What became of a racing read.
#[derive(Clone, Copy, Debug, PartialEq, Eq)]
pub enum Raced {
    /// The bytes that were read have the ticket's digest. `length` is that of the payload.
    Given { length: u32 },
    /// The floor that was loaded behind the read is above the place, so the bytes may be of another
    /// document, or of several.
    Passed { place: u64, floor: u64 },
    /// The bytes have another digest, though the floor is not above the place.
    Damaged { kept: Digest, found: Digest },
    /// The eye could not read; behind that its count of faults is this.
    DeviceFault { count: u64 },
}
