// What a span and a copy say, and why bytes are none.
use tape_base::{Digest, Geometry};
use thiserror::Error;

/// What the first block of a device says of its stripe.
#[derive(Clone, Copy, Debug, PartialEq, Eq)]
pub struct Span {
    pub geometry: Geometry,
    /// The blocks behind the first.
    pub blocks: u64,
}

/// The first fault of the block of a span.
#[derive(Clone, Copy, Debug, PartialEq, Eq, Error)]
pub enum SpanFault {
    #[error("its first block does not begin as that of a stripe")]
    Magic,
    #[error("the version of its first block is neither 1 nor 2")]
    Version,
    #[error("its first block has other fields than those whose digest stands behind them")]
    Digest { kept: Digest, found: Digest },
    /// A geometry that is refused, too few blocks, a stripe that does not begin at block 1, or
    /// bytes that have to be zero and are not.
    #[error("the numbers of its first block are those of no stripe that fits into it")]
    Geometry,
}

/// What a copy of the directory says of the stripe at its sync.
#[derive(Clone, Copy, Debug, PartialEq, Eq)]
pub struct CopyState {
    /// The number of the sync, from 1.
    pub serial: u64,
    /// Where the next buffer begins on the endless tape.
    pub cursor: u64,
    /// The number of the next put, from 1.
    pub next_put: u64,
    /// Whether nothing is written behind the copy until another one has taken its place.
    pub clean: bool,
    /// The least place that is readable, where the copy is clean; else 0.
    pub floor: u64,
}

/// The first fault of a copy.
#[derive(Clone, Copy, Debug, PartialEq, Eq, Error)]
pub enum CopyFault {
    #[error("its gate is shut")]
    GateShut,
    #[error("its header or its footer does not begin as that of a copy")]
    Magic,
    #[error("its version is neither 1 nor 2")]
    Version,
    #[error("its header is of sync {head}, and its footer of sync {foot}")]
    Serials { head: u64, foot: u64 },
    #[error("its header and its directory are not those whose digest its footer has")]
    Digest { kept: Digest, found: Digest },
    /// Another geometry than the span's, a state that no copy has, or bytes that have to be zero
    /// and are not.
    #[error("its numbers are those of no copy of this stripe")]
    Geometry,
}
