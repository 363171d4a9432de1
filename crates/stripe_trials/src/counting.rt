// A directory that counts what walks ask it.
ghost use Rattle.std.specs.Prelude.{◌≡◌};

use dir_table::{Directory, Displaced, Walk};
use packed_directory::PackedDirectory;
use std::alloc::{AllocError, Global};
use std::cell::Cell;
use tape_base::{Geometry, Key, Steps};

/// A packed directory, and how many steps of walks it was asked.
#[derive(Drop)]
pub struct Counting {
    inner: PackedDirectory,
    steps: Cell<u64>,
}

impl Counting {
    pub fn steps(&self) -> u64 {
        self.steps.get()
    }
}

impl Directory for Counting {
    ghost rows = { λ d. ⟦<PackedDirectory as Directory>⟧.rows d.inner };

    ghost window = { λ d. ⟦<PackedDirectory as Directory>⟧.window d.inner };

    ghost spare = { λ d. ⟦<PackedDirectory as Directory>⟧.spare d.inner };

    ghost purges = { ⟦<PackedDirectory as Directory>⟧.purges };

    ghost due = { λ d. ⟦<PackedDirectory as Directory>⟧.due d.inner };

    ghost displaced = { λ d. ⟦<PackedDirectory as Directory>⟧.displaced d.inner };

    ghost walks = { λ d. ⟦<PackedDirectory as Directory>⟧.walks d.inner };

    ghost rest = { λ d. ⟦<PackedDirectory as Directory>⟧.rest d.inner };

    ghost ahead = { λ d. ⟦<PackedDirectory as Directory>⟧.ahead d.inner };

    fn new(alloc: Global, g: &Geometry) -> Result<Self, AllocError> {
        match PackedDirectory::new(alloc, g) {
            Ok(inner) => Ok(Counting {
                inner,
                steps: Cell::new(0),
            }),
            Err(e) => Err(e),
        }
    }

    fn reserve(&mut self, more: usize) -> Result<(), AllocError> {
        self.inner.reserve(more)
    }

    fn insert(&mut self, key: Key, place: u64, blocks: u32, head: bool, pinned: bool) {
        self.inner.insert(key, place, blocks, head, pinned);
    }

    fn displaced(&self) -> &Displaced {
        self.inner.displaced()
    }

    fn delete(&mut self, key: Key, place: u64) -> bool {
        self.inner.delete(key, place)
    }

    fn candidates(&self, key: Key) -> Walk {
        self.inner.candidates(key)
    }

    fn step(&self, walk: &mut Walk, steps: &mut Steps) -> Option<u64> {
        self.steps.set(self.steps.get().saturating_add(1));
        self.inner.step(walk, steps)
    }

    fn in_range(&self, place: u64) -> bool {
        self.inner.in_range(place)
    }

    fn wrap(&mut self, cursor: u64, floor: u64) {
        self.inner.wrap(cursor, floor);
    }

    fn rows_fit(&self) {
        self.inner.rows_fit();
    }
}
