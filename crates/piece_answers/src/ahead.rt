// The memory of a flush for the pieces that it copies ahead.
ghost use Rattle.std.specs.Prelude.{IfOk};
ghost use Rattle.piece_answers.specs.Ahead.{IsMadeFor};

use evacuator::Candidate;
use std::alloc::{AllocError, Global};
use tape_base::{BLOCK, Digest, Geometry};

// How many buffers the floor moves by at most.
const BUFFERS: usize = 2;

/// What came of a piece that was to be copied ahead.
#[derive(Clone, Copy, Debug)]
pub enum Fate {
    /// It does not fit into what is left of the budget.
    NoRoom,
    /// Its document stands in memory.
    Copied { pinned: bool },
    /// The bytes that the device gave are not its own.
    Spoiled { kept: Digest, found: Digest },
    /// The device refused, and its count of faults then stood at `count`.
    Refused { count: u64 },
}

/// The pieces that are due, what came of each, and the documents of those that are copied, one behind
/// the other.
#[derive(Drop)]
pub struct Ahead {
    pub due: Vec<Candidate>,
    /// Which of them the budget keeps.
    pub kept: Vec<bool>,
    pub fates: Vec<Fate>,
    pub bytes: Vec<u8>,
}

impl Ahead {
    /// Memory for all flushes of a session.
    pub fn new(alloc: Global, g: &Geometry) -> Result<Ahead, AllocError>
        ensures { IfOk result (IsMadeFor g.now) }
    {
        let most = BUFFERS * g.agg as usize;
        Ok(Ahead {
            due: Vec::with_capacity(alloc, most)?,
            kept: Vec::from_elem(alloc, false, most)?,
            fates: Vec::with_capacity(alloc, most)?,
            bytes: Vec::from_elem(alloc, 0, g.agg as usize / 2 * BLOCK)?,
        })
    }
}
