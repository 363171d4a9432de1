// A directory beside the tape whose pieces it has.
ghost use Rattle.std.specs.Prelude.{◌≡◌, ◌+◌, ◌≤◌, ◌<◌, ◌^◌, [], true, IfOk};
ghost use Rattle.dir_table.specs.Window.{IsNextPlace};
ghost use Rattle.dir_table.specs.Candidates.{candidates_of};
ghost use Rattle.dir_table.specs.Rows.{plain_rows};

use crate::images::{image_length, read_image};
use crate::walks::places_of;
use dir_table::Directory;
use packed_directory::{ImageFault, PackedDirectory, StoredDirectory};
use std::alloc::{AllocError, Global};
use tape_base::{Geometry, Key, floor_of, lap, lap_end, next_cursor};

// No tape is turned to a cursor above this place.
const LAST: u64 = 1 << 61;

/// A directory, with its geometry, the cursor, the floor and the end of the last piece.
#[derive(Drop)]
pub struct Taped<D: Directory + Drop> {
    pub(crate) directory: D,
    pub(crate) geometry: Geometry,
    pub(crate) cursor: u64,
    pub(crate) floor: u64,
    end: u64,
    ghost agrees: { D.window directory
        ≡ record { geometry = geometry; cursor = cursor; floor = floor; end = end } },
}

impl<D: Directory + Drop> Taped<D> {
    pub fn new(alloc: Global, g: &Geometry) -> Result<Taped<D>, AllocError>
        ensures { IfOk result (λ t. D.rows t.directory ≡ []) }
    {
        let directory = D::new(alloc, g)?;
        Ok(Taped {
            directory,
            geometry: *g,
            cursor: g.content,
            floor: floor_of(g, g.content),
            end: g.content,
        })
    }

    /// Enters a piece behind the last one, and gives its place, if the buffer has room for it.
    pub fn insert(
        &mut self,
        key: Key,
        blocks: u32,
        head: bool,
        pinned: bool,
    ) -> Result<Option<u64>, AllocError> {
        if !self.has_room(blocks) {
            return Ok(None);
        }
        self.directory.reserve(1)?;
        let place = self.end;
        self.directory.insert(key, place, blocks, head, pinned);
        self.end = place + blocks as u64;
        Ok(Some(place))
    }

    // Whether a piece may be entered behind the last one.
    fn has_room(&self, blocks: u32) -> bool
        ensures some { result ≡ true → 1 ≤ blocks }
        ensures few { result ≡ true → blocks ≤ self.now.geometry.agg }
        ensures next { result ≡ true → IsNextPlace (D.window self.now.directory) self.now.end }
        ensures bound { result ≡ true → self.now.end + blocks < 2 ^ 64 }
    {
        let g = &self.geometry;
        let Some(filled) = self.end.checked_sub(self.cursor) else {
            return false;
        };
        let most = filled.saturating_add(blocks as u64);
        blocks > 0
            && most <= g.agg as u64
            && self.cursor < LAST
            && lap(g, self.end) == lap(g, self.cursor)
    }

    /// Begins the next buffer, unless the tape ends, and says whether it did.
    pub fn turn(&mut self) -> bool {
        let g = self.geometry;
        let Some(filled) = self.end.checked_sub(self.cursor) else {
            return false;
        };
        if filled > g.agg as u64 || self.cursor >= LAST {
            return false;
        }
        let cursor = next_cursor(&g, self.cursor, filled as u32);
        if cursor < self.end || cursor < g.content || cursor >= LAST {
            return false;
        }
        let floor = floor_of(&g, cursor);
        if floor > cursor {
            return false;
        }
        self.directory.rows_fit();
        self.directory.wrap(cursor, floor);
        self.cursor = cursor;
        self.floor = floor;
        self.end = cursor;
        true
    }

    /// Takes the row of a key at a place out, and says whether it stood there.
    pub fn delete(&mut self, key: Key, place: u64) -> bool {
        self.directory.delete(key, place)
    }

    /// The places under a key.
    pub fn places(&self, alloc: Global, key: Key) -> Result<Vec<u64>, AllocError>
        ensures { IfOk result (λ v. v.items ≡ candidates_of
            (D.window self.now.directory) key (plain_rows (D.rows self.now.directory))) }
    {
        places_of(alloc, &self.directory, key)
    }
}

/// The bytes of an image for a cursor at the end of the last piece, unless that lies behind the lap.
pub fn image_of(
    alloc: Global,
    taped: &Taped<PackedDirectory>,
) -> Result<Option<Vec<u8>>, AllocError> {
    let g = &taped.geometry;
    if taped.cursor >= LAST || taped.end > lap_end(g, taped.cursor) {
        return Ok(None);
    }
    let mut bytes = vec![in alloc; 255; image_length(g)]?;
    taped.directory.image(taped.end, &mut bytes);
    Ok(Some(bytes))
}

/// The directory of an image that was written at the end of the last piece.
pub fn read_at(
    alloc: Global,
    taped: &Taped<PackedDirectory>,
    bytes: &[u8],
) -> Option<Result<PackedDirectory, ImageFault>> {
    read_image(alloc, &taped.geometry, taped.end, taped.floor, bytes)
}
