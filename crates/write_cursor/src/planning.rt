// Where the write cursor stands, and what a flush plans.
ghost use Rattle.std.specs.Prelude.{◌≡◌, ◌+◌, ◌≤◌, ◌↔◌, IsTrue};
ghost use Rattle.tape_base.specs.Place.{floor_of, next_cursor_of};
ghost use Rattle.write_cursor.specs.Plan.{IsPlace, IsInWindow, FitsInLap, is_wrapped, is_sync_due};

use tape_base::{Geometry, floor_of, lap_end, next_cursor};

/// The places at which the buffer and the last finished sync began.
#[derive(Clone, Copy, Debug, PartialEq, Eq)]
pub struct Cursor {
    pub cursor: u64,
    pub synced: u64,
}

/// What a flush plans for the buffer behind the one that it writes.
#[derive(Clone, Copy, Debug, PartialEq, Eq)]
pub struct Next {
    pub cursor: u64,
    /// The next buffer begins a lap.
    pub wrapped: bool,
    pub must_sync: bool,
    /// The least place that stays readable.
    pub floor: u64,
}

impl Cursor {
    /// The plan of a flush of so many filled blocks.
    pub fn plan(&self, g: &Geometry, filled: u32) -> Next
        requires cursor { IsPlace g.now self.now.cursor }
        requires synced { IsPlace g.now self.now.synced }
        requires filled { filled ≤ g.now.agg }
        ensures cursor { result.cursor ≡ next_cursor_of g.now self.now.cursor filled }
        ensures wrapped { result.wrapped ≡ is_wrapped g.now self.now.cursor filled }
        ensures must_sync { result.must_sync
            ≡ is_sync_due g.now self.now.cursor self.now.synced filled }
        ensures floor { result.floor ≡ floor_of g.now result.cursor }
        ensures stays { FitsInLap g.now self.now.cursor → FitsInLap g.now result.cursor }
        ensures behind { FitsInLap g.now self.now.cursor → self.now.cursor + filled ≤ result.cursor }
    {
        let cursor = next_cursor(g, self.cursor, filled);
        let wrapped = cursor == lap_end(g, self.cursor);
        Next {
            cursor,
            wrapped,
            must_sync: wrapped || cursor + g.agg as u64 > self.synced + g.reach,
            floor: floor_of(g, cursor),
        }
    }

    /// Whether a place may be read or filled while the buffer at the cursor is filled.
    pub fn window_holds(&self, g: &Geometry, place: u64) -> bool
        requires { IsPlace g.now self.now.cursor }
        ensures { IsTrue result ↔ IsInWindow g.now self.now.cursor place }
    {
        floor_of(g, self.cursor) <= place && place < self.cursor + g.agg as u64
    }
}
