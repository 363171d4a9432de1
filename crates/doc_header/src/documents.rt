// Documents, and why bytes are none.
use tape_base::{Digest, PieceId};
use thiserror::Error;

/// What the header of a document says of its payload.
#[derive(Clone, Copy, Debug, PartialEq, Eq)]
pub struct Doc {
    pub id: PieceId,
    /// Where the document begins on the endless tape.
    pub place: u64,
    /// The generation of the format under which it was written.
    pub generation: u64,
    /// The moment up to which it is kept, or 0.
    pub pin: u64,
    /// The first byte of the object's body that a fragment has; 0 for a vector.
    pub start: u64,
}

/// A document that was read, with its payload inside the bytes that were given.
#[derive(Clone, Copy, Debug)]
pub struct DocRef<'a> {
    pub doc: Doc,
    pub payload: &'a [u8],
}

/// The first fault of given bytes.
#[derive(Clone, Copy, Debug, PartialEq, Eq, Error)]
pub enum DocFault {
    #[error("it has fewer than the 128 bytes of a header")]
    Short,
    #[error("it does not begin as a document")]
    Magic,
    #[error("its version is not 1")]
    Version,
    #[error("its blocks are not those of its length, or not all of them are there")]
    Length,
    #[error("its header is not the one whose check it has")]
    HeaderCheck,
    #[error("it is of generation {found}")]
    Generation { found: u64 },
    #[error("it is that of place {found}")]
    Place { found: u64 },
    #[error("its payload is not the one whose digest its header has")]
    Digest { kept: Digest, found: Digest },
}
