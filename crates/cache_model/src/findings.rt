// The pieces that an opening found on its device.

ghost use Rattle.std.specs.Prelude.{◌≡◌, ◌<◌, ◌+◌, [], ◌∷◌, ◌++◌, length, take, drop, slice_get, Some, OnOk, OnErr, IfErr};

use alternate_vector::Vector;
use std::alloc::{AllocError, Global};
use std::marker::Model;
use tape_base::{Digest, PieceId};

/// A piece that an opening found, as its document tells it. Places and blocks count 512-byte blocks.
#[derive(Debug, Drop)]
pub struct FoundRow {
    pub id: PieceId,
    pub place: u64,
    pub blocks: u32,
    /// That of its document.
    pub digest: Digest,
    /// The bytes of the payload, and their digest, as the document's header tells them.
    pub length: u32,
    pub payload: Digest,
    pub pin: u64,
    /// What a vector lists; none of a fragment.
    pub alternates: Option<Vector>,
}

/// The pieces that an opening found, in rising place.
#[derive(Debug, Drop)]
pub struct FoundList {
    rows: Vec<FoundRow>,
}

impl Model for FoundList {
    ghost use Rattle.std.specs.Prelude.{List};
    ghost use Rattle.cache_model.specs.declared.findings.FoundRow.{FoundRow};

    ghost Value = { List FoundRow };

    ghost view = { λ list. list.rows.items };
}

impl FoundList {
    /// No pieces, which takes no memory.
    pub fn new(alloc: Global) -> FoundList
        ensures { result ≡ [] }
    {
        FoundList {
            rows: Vec::new(alloc),
        }
    }

    /// Appends a row. A refusal gives it back.
    pub fn push(&mut self, row: FoundRow) -> Result<(), (AllocError, FoundRow)>
        ensures ok { OnOk result (self.new ≡ self.old ++ row ∷ []) }
        ensures err { OnErr result (self.new ≡ self.old) }
        ensures back { IfErr result (λ refused. refused.1 ≡ row) }
    {
        match self.rows.push(row) {
            Ok(()) => Ok(()),
            Err(failed) => Err((AllocError, failed.value)),
        }
    }

    /// Takes out the row at a place, counted from 0; those behind it close up.
    pub fn take(&mut self, i: usize) -> FoundRow
        requires { i < length self.old }
        ensures row { slice_get self.old i ≡ Some result }
        ensures rest { self.new ≡ take i self.old ++ drop (i + 1) self.old }
    {
        self.rows.remove(i)
    }

    /// How many rows there are.
    pub fn len(&self) -> usize
        ensures { result ≡ length self.now }
    {
        self.rows.len()
    }

    /// The row at a place, counted from 0.
    pub fn get(&self, i: usize) -> &FoundRow
        requires { i < length self.now }
        ensures { slice_get self.now i ≡ Some result.now }
    {
        &self.rows[i]
    }
}
