// The rows of a directory, and a walk over the rows of a key.
ghost use Rattle.std.specs.Prelude.{◌≡◌, ◌<◌, ◌≤◌};
ghost use Rattle.dir_entry.specs.Sizes.{IsLeastClass};
ghost use Rattle.dir_table.specs.Rows.{plain_row, row_of_key, spot_of_key, spot_of};
ghost use Rattle.dir_table.specs.Entering.{IsRowOf};

use dir_entry::size_class;
use tape_base::{Geometry, Key};

/// Where a piece is entered: the segment, the bucket and the tag of its key, and its place.
#[derive(Clone, Copy, Debug, PartialEq, Eq)]
pub struct DirRow {
    pub segment: u32,
    pub bucket: u32,
    pub tag: u16,
    pub place: u64,
}

impl DirRow {
    pub fn of_key(g: &Geometry, key: Key, place: u64) -> DirRow
        ensures { result ≡ row_of_key g.now key place }
    {
        DirRow {
            segment: key.segment(g),
            bucket: key.bucket(g),
            tag: key.tag(),
            place,
        }
    }

    pub(crate) fn spot(&self) -> Spot
        ensures { result ≡ spot_of self.now }
    {
        Spot {
            segment: self.segment,
            bucket: self.bucket,
            tag: self.tag,
        }
    }
}

/// Where a piece is entered, and what is kept of it there.
#[derive(Clone, Copy, Debug, PartialEq, Eq)]
pub struct StoredRow {
    pub segment: u32,
    pub bucket: u32,
    pub tag: u16,
    pub place: u64,
    /// The unit of the approximate size: 512 bytes times 8 to this power.
    pub big: u8,
    /// The units of the approximate size, less one.
    pub size: u8,
    /// It is the vector of an object.
    pub head: bool,
    pub pinned: bool,
    /// Written 0.
    pub token: bool,
}

impl StoredRow {
    /// The row of a piece that fits into a buffer.
    pub fn of_piece(
        g: &Geometry,
        key: Key,
        place: u64,
        blocks: u32,
        head: bool,
        pinned: bool,
    ) -> StoredRow
        requires some { 1 ≤ blocks }
        requires few { blocks ≤ 8192 }
        ensures row { IsRowOf g.now (record {
          key = key;
          place = place;
          blocks = blocks;
          head = head;
          pinned = pinned;
        }) result }
        ensures within { (result.segment < g.now.segments) × (result.bucket < g.now.buckets) }
        ensures tag { result.tag < 4096 }
    {
        let (big, size) = class_of(blocks);
        StoredRow {
            segment: key.segment(g),
            bucket: key.bucket(g),
            tag: key.tag(),
            place,
            big,
            size,
            head,
            pinned,
            token: false,
        }
    }

    pub(crate) fn spot(&self) -> Spot
        ensures { result ≡ spot_of (plain_row self.now) }
    {
        self.plain().spot()
    }

    /// The row alone.
    pub fn plain(&self) -> DirRow
        ensures { result ≡ plain_row self.now }
    {
        DirRow {
            segment: self.segment,
            bucket: self.bucket,
            tag: self.tag,
            place: self.place,
        }
    }
}

// The size class of a piece that fits into a buffer.
fn class_of(blocks: u32) -> (u8, u8)
    requires some { 1 ≤ blocks }
    requires few { blocks ≤ 8192 }
    ensures { IsLeastClass blocks result.0 result.1 }
{
    match size_class(blocks) {
        Some(class) => class,
        None => (3, 63),
    }
}

/// The segment, the bucket and the tag that a row stands under.
#[derive(Clone, Copy, Debug, PartialEq, Eq, Hash)]
pub struct Spot {
    pub segment: u32,
    pub bucket: u32,
    pub tag: u16,
}

impl Spot {
    pub fn of_key(g: &Geometry, key: Key) -> Spot
        ensures { result ≡ spot_of_key g.now key }
    {
        Spot {
            segment: key.segment(g),
            bucket: key.bucket(g),
            tag: key.tag(),
        }
    }
}

/// How far a walk over the rows of a key has come. It holds until the directory changes.
#[derive(Clone, Copy, Debug)]
pub struct Walk {
    pub spot: Spot,
    /// Where its directory goes on; nowhere, where no row is left.
    pub next: Option<u64>,
}
