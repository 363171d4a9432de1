// The names of pieces.
use crate::keys::Key;

/// The name of a piece of the object under the key `first`: index 0 is the vector that lists the
/// object's alternates, and the fragments of a put count from 1.
#[derive(Clone, Copy, Debug, PartialEq, Eq, Hash)]
pub struct PieceId {
    pub first: Key,
    pub put: u64,
    pub index: u32,
}
