// A chronicle that forgets nothing: tables of what its records say, and how many these are.
ghost use Rattle.std.specs.Prelude.{◌≡◌, [], option_map};
ghost use Rattle.std.specs.HashMap.{get};
ghost use Rattle.cache_model.specs.State.{count_of_vector, floor_now, row_of, vector_piece};
ghost use Rattle.cache_model.specs.Verdict.{cause_of_piece, cause_of_vector, cause_without_vector};
ghost use Rattle.cache_model.specs.Kept.{all_of};
ghost use Rattle.cache_chronicle.specs.Full.{state_of_history, kept_of_history};
ghost use Rattle.cache_chronicle.specs.LivePieces.{kept_piece};

use crate::Chronicle;
use crate::pieces::{KeptPiece, vector_piece};
use crate::records::GhostRecords;
use crate::tables::Tables;
use crate::vectors::{NotedVector, last_of};
use cache_model::{Cause, Rec};
use std::alloc::{AllocError, Global};
use std::marker::Model;
use tape_base::{Key, PieceId};

/// Tables of what all records say last of each piece, place and key. Of the records themselves it keeps
/// their count alone.
#[derive(Drop)]
pub struct FullChronicle {
    records: GhostRecords,
    count: u64,
    tables: Tables,
}

impl Model for FullChronicle {
    ghost use Rattle.cache_chronicle.specs.Full.{History};

    ghost Value = { History };

    ghost use Rattle.cache_chronicle.specs.Inside.{history_of, IsIndexed};

    ghost view = { history_of };

    ghost invariant = { IsIndexed };
}

impl FullChronicle {
    pub fn new(alloc: Global) -> FullChronicle
        ensures { kept_of_history result ≡ all_of [] }
    {
        FullChronicle {
            records: GhostRecords::new(),
            count: 0,
            tables: Tables::new(alloc),
        }
    }

    fn floor(&self) -> u64
        ensures { result ≡ floor_now (state_of_history self.now) }
    {
        self.tables.tape.floor()
    }

    // Where a piece stands, also below the floor.
    fn standing_of(&self, id: PieceId) -> Option<KeptPiece>
        ensures { result ≡ option_map kept_piece (row_of (state_of_history self.now) id) }
    {
        self.tables.pieces.get(&id).copied()
    }

    fn cause_of_piece(&self, id: PieceId) -> Cause
        ensures { result ≡ cause_of_piece (state_of_history self.now) id }
    {
        if let Some(cause) = self.tables.losses.get(&id).copied() {
            return cause;
        }
        match self.standing_of(id) {
            Some(standing) => Cause::Passed {
                place: standing.place,
                floor: self.floor(),
                unsaved: self.tables.unsaved.contains(&standing.place),
            },
            None => self.tables.tape.no_record(),
        }
    }

    // How many alternates a vector lists.
    fn count_of(&self, id: PieceId) -> u32
        ensures { result ≡ count_of_vector (state_of_history self.now) id }
    {
        match self.tables.counts.get(&id).copied() {
            Some(count) => count,
            None => 0,
        }
    }

    fn cause_of_vector(&self, key: Key, put: u64) -> Cause
        ensures { result ≡ cause_of_vector (state_of_history self.now) (vector_piece key put) }
    {
        let id = vector_piece(key, put);
        match self.live_of(id) {
            Some(_) => Cause::NoMatch {
                count: self.count_of(id),
            },
            None => self.cause_of_piece(id),
        }
    }

    fn cause_without_vector(&self, key: Key) -> Cause
        ensures { result ≡ cause_without_vector (state_of_history self.now) key }
    {
        match self.tables.aborts.get(&key).copied() {
            Some(writer) => Cause::Aborted { writer },
            None => self.tables.tape.no_record(),
        }
    }
}

impl Chronicle for FullChronicle {
    ghost use Rattle.cache_chronicle.specs.Full.{kept_of_history};

    ghost kept = { kept_of_history };

    ghost room = { λ c. c.room };

    fn reserve(&mut self, more: usize) -> Result<(), AllocError> {
        // The count has 64 bits.
        if u64::MAX - self.count < more as u64 {
            return Err(AllocError);
        }
        self.tables.reserve(more)
    }

    fn push(&mut self, rec: Rec) {
        self.tables.note(&rec);
        self.records.note(&rec);
        self.count += 1;
    }

    fn count(&self) -> u64 {
        self.count
    }

    fn why(&self, key: Key) -> Cause {
        match last_of(&self.tables.vectors, key) {
            Some(NotedVector::Complete(put)) => self.cause_of_vector(key, put),
            Some(NotedVector::TakenOut(_)) => Cause::Removed,
            None => self.cause_without_vector(key),
        }
    }

    fn why_piece(&self, id: PieceId) -> Cause {
        self.cause_of_piece(id)
    }

    fn vector_of(&self, key: Key) -> Option<PieceId> {
        match last_of(&self.tables.vectors, key) {
            Some(NotedVector::Complete(put)) => Some(vector_piece(key, put)),
            Some(NotedVector::TakenOut(_)) | None => None,
        }
    }

    fn live_of(&self, id: PieceId) -> Option<KeptPiece> {
        let standing = self.standing_of(id)?;
        if self.floor() <= standing.place {
            Some(standing)
        } else {
            None
        }
    }

    fn last_at(&self, place: u64) -> Option<PieceId> {
        self.tables.places.get(&place).copied()
    }

    fn dropped(&self) -> u64 {
        self.tables.tape.dropped()
    }
}
