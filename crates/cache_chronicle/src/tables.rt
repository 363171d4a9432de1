// The tables of what the records say last of each piece, place and key.
ghost use Rattle.std.specs.Prelude.{◌≡◌, ◌+◌, ◌≤◌, ◌<◌, OnOk};
ghost use Rattle.cache_model.specs.State.{State, nothing_yet, state_after};
ghost use Rattle.cache_chronicle.specs.Indexed.{HasTables, spare_of};
ghost use Rattle.cache_chronicle.specs.Weight.{weight_of};

use crate::counts::{Counts, note_count};
use crate::losses::{
    Aborts, Losses, Places, Unsaved, note_abort, note_loss, note_place, note_unsaved,
};
use crate::payloads::{Payload, cut_after};
use crate::pieces::{Pieces, note_piece};
use crate::tape::Tape;
use crate::vectors::{Vectors, note_vector};
use cache_model::Rec;
use std::alloc::{AllocError, Global};
use std::collections::{HashMap, HashSet};

#[derive(Drop)]
pub(crate) struct Tables {
    pub(crate) tape: Tape,
    // The payload of the fragment that was cut last.
    pub(crate) last_cut: Option<Payload>,
    pub(crate) pieces: Pieces,
    pub(crate) losses: Losses,
    pub(crate) places: Places,
    pub(crate) unsaved: Unsaved,
    pub(crate) vectors: Vectors,
    pub(crate) aborts: Aborts,
    pub(crate) counts: Counts,
}

impl Tables {
    pub(crate) fn new(alloc: Global) -> Tables
        ensures { HasTables result nothing_yet }
    {
        Tables {
            tape: Tape::new(),
            last_cut: None,
            pieces: HashMap::new(alloc),
            losses: HashMap::new(alloc),
            places: HashMap::new(alloc),
            unsaved: HashSet::new(alloc),
            vectors: HashMap::new(alloc),
            aborts: HashMap::new(alloc),
            counts: HashMap::new(alloc),
        }
    }

    pub(crate) fn reserve(&mut self, more: usize) -> Result<(), AllocError>
        ensures has { (s : State) → HasTables self.old s → HasTables self.new s }
        ensures room { OnOk result (more ≤ spare_of self.new) }
        ensures same { spare_of self.old ≤ spare_of self.new }
    {
        self.pieces.reserve(more)?;
        self.losses.reserve(more)?;
        self.places.reserve(more)?;
        self.unsaved.reserve(more)?;
        self.vectors.reserve(more)?;
        self.aborts.reserve(more)?;
        self.counts.reserve(more)
    }

    /// Notes what a record says.
    pub(crate) fn note(&mut self, rec: &Rec)
        requires { weight_of rec.now ≤ spare_of self.old }
        ensures has { (s : State) → HasTables self.old s → HasTables self.new (state_after s rec.now) }
        ensures spare { spare_of self.old ≤ spare_of self.new + weight_of rec.now }
    {
        note_piece(&mut self.pieces, &self.vectors, self.last_cut, rec);
        note_loss(&mut self.losses, rec);
        note_place(&mut self.places, rec);
        note_unsaved(&mut self.unsaved, rec);
        note_vector(&mut self.vectors, rec);
        note_abort(&mut self.aborts, rec);
        note_count(&mut self.counts, rec);
        self.last_cut = cut_after(self.last_cut, rec);
        self.tape = self.tape.after(rec);
    }
}
