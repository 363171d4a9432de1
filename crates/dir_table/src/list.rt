// A directory that keeps every row until it is taken out or passed.
ghost use Rattle.std.specs.Prelude.{◌≡◌};

use crate::directory::Directory;
use crate::displaced::Displaced;
use crate::links::{self, Links};
use crate::rows::{DirRow, Spot, StoredRow, Walk};
use crate::walks;
use crate::window::Window;
use std::alloc::{AllocError, Global};
use std::marker::Model;
use tape_base::{Geometry, Key, Steps};

/// The rows in the order in which they were inserted, and for each segment, bucket and tag a chain
/// of its rows from the newest on.
#[derive(Drop)]
pub struct ListDirectory {
    pub(crate) window: Window,
    links: Links,
    // No row stands under a number below this one.
    first: u64,
    displaced: Displaced,
}

impl Model for ListDirectory {
    ghost use Rattle.dir_table.specs.Listed.{Listed};

    ghost Value = { Listed };

    ghost use Rattle.dir_table.specs.Listing.{listed_of, IsListing};

    ghost view = { listed_of };

    ghost invariant = { IsListing };
}

impl Directory for ListDirectory {
    ghost use Rattle.std.specs.Prelude.{[], false, true, ◌≡◌};
    ghost use Rattle.dir_table.specs.Listed.{rows_listed};
    ghost use Rattle.dir_table.specs.Trail.{is_on, places_left, count_left};
    ghost use Rattle.dir_table.specs.Displacement.{none_displaced};

    ghost rows = { rows_listed };

    ghost window = { λ d. d.window };

    ghost spare = { λ d. d.spare };

    ghost purges = { false };

    ghost due = { λ _ _. [] };

    ghost displaced = { λ _. none_displaced };

    ghost walks = { λ d walk. is_on walk d.entries ≡ true };

    ghost rest = { λ d walk. places_left d.window walk d.entries };

    ghost ahead = { λ d walk. count_left walk d.entries };

    fn new(alloc: Global, g: &Geometry) -> Result<Self, AllocError> {
        Ok(ListDirectory {
            window: Window::first(g),
            links: links::new(alloc),
            first: 0,
            displaced: Displaced::new(alloc),
        })
    }

    fn reserve(&mut self, more: usize) -> Result<(), AllocError> {
        links::reserve(&mut self.links, more)
    }

    fn insert(&mut self, key: Key, place: u64, blocks: u32, head: bool, pinned: bool) {
        let row = StoredRow::of_piece(&self.window.geometry, key, place, blocks, head, pinned);
        links::add(&mut self.links, row);
        self.window.end = place + blocks as u64;
    }

    fn displaced(&self) -> &Displaced {
        &self.displaced
    }

    fn delete(&mut self, key: Key, place: u64) -> bool {
        let row = DirRow::of_key(&self.window.geometry, key, place);
        links::take_row(&mut self.links, &row)
    }

    fn candidates(&self, key: Key) -> Walk {
        walks::begin(&self.links, Spot::of_key(&self.window.geometry, key))
    }

    fn step(&self, walk: &mut Walk, steps: &mut Steps) -> Option<u64> {
        walks::next_place(&self.links, &self.window, walk, steps)
    }

    fn in_range(&self, place: u64) -> bool {
        self.window.in_range(place)
    }

    fn wrap(&mut self, cursor: u64, floor: u64) {
        self.first = links::forget(&mut self.links, self.first, floor);
        self.window.cursor = cursor;
        self.window.floor = floor;
        self.window.end = cursor;
    }

    fn rows_fit(&self) {
        let _ = &self.window;
    }
}
