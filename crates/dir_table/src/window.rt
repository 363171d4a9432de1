// Which places of a directory are in range.
ghost use Rattle.std.specs.Prelude.{◌≡◌};

use tape_base::{Geometry, floor_of};

/// Where the buffer begins, the least readable place, and the end of the piece that was entered
/// last, which is the cursor where there is none.
#[derive(Clone, Copy, Debug)]
pub struct Window {
    pub geometry: Geometry,
    pub cursor: u64,
    pub floor: u64,
    pub end: u64,
}

impl Window {
    ghost use Rattle.dir_table.specs.Window.{first_window, is_in_range};

    /// The window of a tape on which nothing is entered yet.
    pub fn first(g: &Geometry) -> Window
        ensures { result ≡ first_window g.now }
    {
        Window {
            geometry: *g,
            cursor: g.content,
            floor: floor_of(g, g.content),
            end: g.content,
        }
    }

    pub fn in_range(&self, place: u64) -> bool
        ensures { result ≡ is_in_range self.now place }
    {
        self.floor <= place && place < self.end
    }
}
