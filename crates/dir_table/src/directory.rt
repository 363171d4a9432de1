// What a directory answers.
ghost use Rattle.std.specs.Prelude.{◌≡◌, ◌+◌, ◌≤◌, ◌<◌, ◌&&◌, ℕ, Bool, List, [], true, false, All, IsOk, IfOk, OnOk, IsPermutation, count_by};
ghost use Rattle.std.specs.Bool.{OnTrue};
ghost use Rattle.dir_table.specs.declared.rows.StoredRow.{StoredRow};
ghost use Rattle.dir_table.specs.declared.rows.Walk.{Walk as WalkValue};
ghost use Rattle.dir_table.specs.Rows.{row_of_key, has_row, is_in_bucket, plain_rows, LosesPlain};
ghost use Rattle.dir_table.specs.declared.window.Window.{Window as WindowValue};
ghost use Rattle.dir_table.specs.Window.{first_window, is_in_range, IsNextPlace, IsLater};
ghost use Rattle.dir_table.specs.Candidates.{candidates_of, GivesFirst, Counts};
ghost use Rattle.dir_table.specs.Displacement.{Displacement, none_displaced, is_full, AreFew};
ghost use Rattle.dir_table.specs.Entering.{Enters};
ghost use Rattle.dir_table.specs.Wrap.{stored_from};

use crate::displaced::Displaced;
use crate::rows::Walk;
use std::alloc::{AllocError, Global};
use tape_base::{Geometry, Key, Steps};

/// Under each key the places of its pieces. A key has a segment, a bucket and a tag; other keys may
/// have the same, so a walk gives candidates, and who reads a place finds out whose it is.
pub trait Directory {
    /// The rows that it stands for.
    ghost rows: { Self → List StoredRow };

    /// The geometry, where the buffer begins, the least readable place, and the end of the piece
    /// that was entered last.
    ghost window: { Self → WindowValue };

    /// How many rows can be inserted without more memory.
    ghost spare: { Self → ℕ };

    /// Whether an insert displaces rows where a segment is full.
    ghost purges: { Bool };

    /// The places of the rows of a segment that a purge takes, in its order.
    ghost due: { Self → ℕ → List ℕ };

    /// What the last insert displaced.
    ghost displaced: { Self → Displacement };

    /// A walk was made of this state.
    ghost walks: { Self → WalkValue → Type 0 };

    /// The places that a walk has left, in its order.
    ghost rest: { Self → WalkValue → List ℕ };

    /// How many rows of the bucket a walk has left, at most.
    ghost ahead: { Self → WalkValue → ℕ };

    fn new(alloc: Global, g: &Geometry) -> Result<Self, AllocError>
        ensures rows { IfOk result (λ d. rows d ≡ []) }
        ensures window { IfOk result (λ d. window d ≡ first_window g.now) }
        ensures displaced { IfOk result (λ d. displaced d ≡ none_displaced) };

    /// Makes room for so many inserts. Where there is room, it takes no memory.
    fn reserve(&mut self, more: usize) -> Result<(), AllocError>
        ensures rows { rows self.new ≡ rows self.old }
        ensures window { window self.new ≡ window self.old }
        ensures displaced { displaced self.new ≡ displaced self.old }
        ensures room { OnOk result (more ≤ spare self.new) }
        ensures enough { more ≤ spare self.old → IsOk result }
        ensures spare { spare self.old ≤ spare self.new };

    /// Enters the piece that stands from a place on.
    fn insert(&mut self, key: Key, place: u64, blocks: u32, head: bool, pinned: bool)
        requires room { 1 ≤ spare self.old }
        requires some { 1 ≤ blocks }
        requires few { blocks ≤ (window self.old).geometry.agg }
        requires next { IsNextPlace (window self.old) place }
        ensures rows { Enters purges (window self.old) (record {
          key = key;
          place = place;
          blocks = blocks;
          head = head;
          pinned = pinned;
        }) (rows self.old) (displaced self.new) (rows self.new) }
        ensures due { let w = window self.old in
            let row = row_of_key w.geometry key place in
            purges && is_full w row (plain_rows (rows self.old)) ≡ true
            → (displaced self.new).places ≡ due self.old row.segment }
        ensures window { window self.new ≡ record (window self.old) { end = place + blocks } }
        ensures spare { spare self.old ≤ spare self.new + 1 };

    fn displaced(&self) -> &Displaced
        ensures { result.now.told ≡ displaced self.now };

    /// Takes a row of the key out, and says whether it stood there.
    fn delete(&mut self, key: Key, place: u64) -> bool
        ensures found { let row = row_of_key (window self.old).geometry key place in
            result ≡ has_row row (plain_rows (rows self.old)) }
        ensures gone { let row = row_of_key (window self.old).geometry key place in
            OnTrue result (LosesPlain row (rows self.old) (rows self.new)) }
        ensures none { result ≡ false → rows self.new ≡ rows self.old }
        ensures window { window self.new ≡ window self.old }
        ensures displaced { displaced self.new ≡ displaced self.old }
        ensures spare { spare self.old ≤ spare self.new };

    /// Begins a walk over the places of a key.
    fn candidates(&self, key: Key) -> Walk
        ensures rest { rest self.now result
            ≡ candidates_of (window self.now) key (plain_rows (rows self.now)) }
        ensures walks { walks self.now result }
        ensures ahead { let g = (window self.now).geometry in
            ahead self.now result ≤ count_by (is_in_bucket g key) (plain_rows (rows self.now)) };

    /// The next place of a walk.
    fn step(&self, walk: &mut Walk, steps: &mut Steps) -> Option<u64>
        requires { walks self.now walk.old }
        ensures gives { GivesFirst (rest self.now walk.old) result (rest self.now walk.new) }
        ensures walks { walks self.now walk.new }
        ensures steps { let passed = ahead self.now in
            Counts (passed walk.old) (passed walk.new) result steps.old steps.new };

    fn in_range(&self, place: u64) -> bool
        ensures { result ≡ is_in_range (window self.now) place };

    /// Begins the buffer at a cursor, with a floor. The rows below the floor go.
    fn wrap(&mut self, cursor: u64, floor: u64)
        requires cursor { IsLater (window self.old) cursor floor }
        requires above { All (λ r. r.place < cursor) (rows self.old) }
        ensures rows { IsPermutation (stored_from floor (rows self.old)) (rows self.new) }
        ensures window { let old = window self.old in
            window self.new ≡ record old { cursor = cursor; floor = floor; end = cursor } }
        ensures displaced { displaced self.new ≡ displaced self.old }
        ensures spare { spare self.old ≤ spare self.new };

    /// A law for proofs: where the rows end, and, where an insert may displace, how many there are.
    fn rows_fit(&self)
        ensures ended { All (λ r. r.place < (window self.now).end) (rows self.now) }
        ensures few { purges ≡ true → AreFew (window self.now).geometry (plain_rows (rows self.now)) };
}
