// What an insert pushed out.
ghost use Rattle.std.specs.Prelude.{◌≡◌, ◌<◌, ◌≤◌, ◌++◌, ◌∷◌, [], length, slice_get, Some, IfOk};

use std::alloc::{AllocError, Global};
use std::marker::Model;

/// The places of the rows that the last insert displaced, their segment, and how many rows of that
/// segment were in range before.
#[derive(Debug, Drop)]
pub struct Displaced {
    places: Vec<u64>,
    segment: u32,
    live: u64,
}

impl Model for Displaced {
    ghost use Rattle.std.specs.Prelude.{vec_capacity};
    ghost use Rattle.dir_table.specs.Displacement.{DisplacementKept};

    ghost Value = { DisplacementKept };

    ghost view = { λ d. record {
      told = record { places = d.places.items; segment = d.segment; live = d.live };
      room = vec_capacity d.places;
    } };
}

impl Displaced {
    ghost use Rattle.dir_table.specs.Displacement.{none_displaced};

    /// Nothing was displaced, which takes no memory.
    pub fn new(alloc: Global) -> Displaced
        ensures { result.told ≡ none_displaced }
    {
        Displaced {
            places: Vec::new(alloc),
            segment: 0,
            live: 0,
        }
    }

    /// Nothing was displaced, and so many places can be told without more memory.
    pub fn with_room(alloc: Global, most: usize) -> Result<Displaced, AllocError>
        ensures told { IfOk result (λ d. d.told ≡ none_displaced) }
        ensures room { IfOk result (λ d. most ≤ d.room) }
    {
        let places = Vec::with_capacity(alloc, most)?;
        Ok(Displaced {
            places,
            segment: 0,
            live: 0,
        })
    }

    /// Tells of an insert into a segment that had so many rows, and of no place yet.
    pub fn begin(&mut self, segment: u32, live: u64)
        ensures told { self.new.told ≡ record { places = []; segment = segment; live = live } }
        ensures room { self.new.room ≡ self.old.room }
    {
        self.places.clear();
        self.segment = segment;
        self.live = live;
    }

    /// Tells one place more.
    pub fn push(&mut self, place: u64)
        requires { length self.old.told.places < self.old.room }
        ensures told { self.new.told
            ≡ record self.old.told { places = self.old.told.places ++ place ∷ [] } }
        ensures room { self.new.room ≡ self.old.room }
    {
        self.places.push_reserved(place);
    }

    pub fn len(&self) -> usize
        ensures { result ≡ length self.now.told.places }
    {
        self.places.len()
    }

    pub fn place(&self, i: usize) -> u64
        requires { i < length self.now.told.places }
        ensures { slice_get self.now.told.places i ≡ Some result }
    {
        self.places[i]
    }

    pub fn segment(&self) -> u32
        ensures { result ≡ self.now.told.segment }
    {
        self.segment
    }

    pub fn live(&self) -> u64
        ensures { result ≡ self.now.told.live }
    {
        self.live
    }
}
