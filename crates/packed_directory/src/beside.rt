// Entries beside a cursor: which place each stands for.
ghost use Rattle.std.specs.Prelude.{◌≡◌, ◌<◌, ◌≤◌, ◌^◌};
ghost use Rattle.packed_directory.specs.Phases.{IsCursor, place_of_entry, stands_between};
ghost use Rattle.packed_directory.specs.StoredRows.{row_of_entry, entry_of_row};

use dir_entry::Entry;
use dir_table::StoredRow;
use tape_base::{Geometry, lap, phase, slot};

/// The cursor at which a buffer begins, of a tape of this geometry.
#[derive(Clone, Copy, Debug)]
pub struct Beside {
    pub geometry: Geometry,
    pub cursor: u64,
    ghost bounds: { IsCursor geometry.content cursor },
}

impl Beside {
    #[tactic(auto, unfolding(crate::specs::Phases::place_of_entry))]
    pub fn place_of(&self, e: &Entry) -> u64
        requires some { 0 < e.now.offset }
        requires few { e.now.offset ≤ self.now.geometry.content }
        ensures { result ≡ place_of_entry self.now.geometry self.now.cursor e.now }
    {
        let here = lap(&self.geometry, self.cursor);
        let lap = if e.phase == phase(&self.geometry, self.cursor) {
            here
        } else {
            here - 1
        };
        self.geometry.content * lap + (e.offset - 1)
    }

    /// Whether an entry stands for a place from one place on and below another.
    pub fn stands_between(&self, low: u64, high: u64, e: &Entry) -> bool
        ensures { result ≡ stands_between self.now.geometry self.now.cursor low high e.now }
    {
        if e.offset == 0 || e.offset > self.geometry.content {
            return false;
        }
        let place = self.place_of(e);
        low <= place && place < high
    }

    pub fn row_of(&self, segment: u32, bucket: u32, e: &Entry) -> StoredRow
        requires some { 0 < e.now.offset }
        requires few { e.now.offset ≤ self.now.geometry.content }
        ensures { result ≡ row_of_entry self.now.geometry self.now.cursor segment bucket e.now }
    {
        StoredRow {
            segment,
            bucket,
            tag: e.tag,
            place: self.place_of(e),
            big: e.big,
            size: e.size,
            head: e.head,
            pinned: e.pinned,
            token: e.token,
        }
    }
}

/// The entry of a row.
pub fn entry_of(g: &Geometry, row: &StoredRow) -> Entry
    ensures { result ≡ entry_of_row g.now row.now }
{
    Entry {
        offset: slot(g, row.place) + 1,
        big: row.big,
        size: row.size,
        tag: row.tag,
        phase: phase(g, row.place),
        head: row.head,
        pinned: row.pinned,
        token: row.token,
        next: 0,
    }
}
