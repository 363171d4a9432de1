// A directory of packed entries.
ghost use Rattle.std.specs.Prelude.{◌≡◌, ℕ, [], ◌∷◌, IfSome, IfNone, ◌+◌, ◌-◌, ◌*◌, ◌^◌, ◌<◌, ◌≤◌, true, false, length, map, drop, replicate, All, IfOk, IfErr, OnOk};
ghost use Rattle.dir_entry.specs.Layout.{EntryFits};
ghost use Rattle.std.specs.Bool.{OnTrue};
ghost use Rattle.std.specs.List.{list_any};
ghost use Rattle.tape_base.specs.Place.{lap_of, lap_end_of};
ghost use Rattle.dir_table.specs.Candidates.{GivesFirst};
ghost use Rattle.dir_table.specs.Displacement.{none_displaced};
ghost use Rattle.dir_table.specs.Rows.{has_row, plain_rows, LosesPlain};
ghost use Rattle.dir_table.specs.Wrap.{stored_from};
ghost use Rattle.packed_directory.specs.Leaving.{is_row, LosesRow, TakesOutOfSegment};
ghost use Rattle.packed_directory.specs.Phases.{IsCursor, least_place, place_of_entry, has_block};
ghost use Rattle.packed_directory.specs.StoredRows.{entry_of_row};
ghost use Rattle.packed_directory.specs.PackedImage.{image_blocks_of, image_segments, segment_length, entries_in, means, IsImageOfSegments, IsImageFault};
ghost use Rattle.packed_directory.specs.AllWalks.{IsAllWalk, chain_left, rows_ahead, buckets_ahead};
ghost use Rattle.packed_directory.specs.Cleaned.{AreCleaned};
ghost use Rattle.dir_segment.specs.Entries.{AreCounted};
ghost use Rattle.packed_directory.specs.Packed.{packed_rows, segment_at, AreBetween, AreOfPlaces, IsPacked, IsReadable, EntersRow, first_packed, new_segments};

use crate::beside::{Beside, entry_of};
use crate::fault::ImageFault;
use crate::image::{count_entries, read_segments, write_segments};
use crate::space::{clean, take_in};
use crate::stored::StoredDirectory;
use crate::walks::{AllWalk, slot_before};
use dir_segment::{PurgeList, Segment, delete_takes};
use dir_table::{DirRow, Directory, Displaced, Spot, StoredRow, Walk};
use std::alloc::{AllocError, Global};
use std::marker::Model;
use tape_base::{Geometry, Key, Steps, floor_of, lap, phase, slot};

/// Segments whose entries are the rows, each at its place.
#[derive(Drop)]
pub struct PackedDirectory {
    beside: Beside,
    floor: u64,
    end: u64,
    segments: Vec<Segment>,
    purge: PurgeList,
    displaced: Displaced,
}

impl Model for PackedDirectory {
    ghost use Rattle.packed_directory.specs.Packed.{Packed};

    ghost Value = { Packed };

    ghost use Rattle.packed_directory.specs.Packing.{packed_of, IsPacking};

    ghost view = { packed_of };

    ghost invariant = { IsPacking };
}

// Enters a row into its segment, and says whether others had to go first.
fn enter(
    beside: &Beside,
    segments: &mut Vec<Segment>,
    row: &StoredRow,
    purge: &mut PurgeList,
) -> bool
    requires segment { row.now.segment < length segments.old.items }
    requires bucket { row.now.bucket < beside.now.geometry.buckets }
    requires widths { All (λ lists. length lists.chains ≡ beside.now.geometry.buckets)
        segments.old.items }
    requires entry { EntryFits (entry_of_row beside.now.geometry row.now) }
    requires place { let g = beside.now.geometry in
        place_of_entry g beside.now.cursor (entry_of_row g row.now) ≡ row.now.place }
    requires made { purge.old.buckets ≡ beside.now.geometry.buckets }
    ensures enters { EntersRow beside.now.geometry beside.now.cursor row.now result
        purge.new.entries segments.old.items segments.new.items }
    ensures made { purge.new.buckets ≡ purge.old.buckets }
{
    let entry = entry_of(&beside.geometry, row);
    let segment = &mut segments[row.segment as usize];
    take_in(segment, row.bucket, entry, purge)
}

// The directory of these segments, into which no piece was entered since the cursor.
fn assemble(
    alloc: Global,
    beside: Beside,
    floor: u64,
    segments: Vec<Segment>,
) -> Result<PackedDirectory, AllocError>
    requires packed { let c = beside.cursor in IsPacked beside.geometry c floor c segments.items }
    ensures { IfOk result (λ d. d ≡ record {
      geometry = beside.geometry;
      cursor = beside.cursor;
      floor = floor;
      end = beside.cursor;
      segments = segments.items;
      out = none_displaced;
    }) }
{
    let buckets = beside.geometry.buckets;
    let purge = PurgeList::new(alloc, buckets)?;
    let most = (3 * buckets + 9) / 10;
    let displaced = Displaced::with_room(alloc, most as usize)?;
    Ok(PackedDirectory {
        beside,
        floor,
        end: beside.cursor,
        segments,
        purge,
        displaced,
    })
}

// Takes the row of a place out of its segment, and says whether it stood there.
fn take_out(beside: &Beside, segments: &mut Vec<Segment>, spot: &Spot, place: u64) -> bool
    requires segment { spot.now.segment < length segments.old.items }
    requires bucket { spot.now.bucket < beside.now.geometry.buckets }
    requires widths { All (λ lists. length lists.chains ≡ beside.now.geometry.buckets)
        segments.old.items }
    requires between { (low : ℕ) × (high : ℕ) × All (AreBetween beside.now.geometry
        beside.now.cursor low high) segments.old.items }
    requires least { least_place beside.now.geometry beside.now.cursor ≤ place }
    requires lap { lap_of beside.now.geometry place
        ≤ lap_of beside.now.geometry beside.now.cursor }
    ensures { TakesOutOfSegment beside.now.geometry beside.now.cursor spot.now.segment
        spot.now.bucket
        spot.now.tag place result segments.old.items segments.new.items }
{
    let g = &beside.geometry;
    let offset = slot(g, place) + 1;
    let odd = phase(g, place);
    delete_takes();
    let segment = &mut segments[spot.segment as usize];
    segment.is_counted();
    segment.delete(spot.bucket, spot.tag, offset, odd)
}

// The segments of a new directory.
fn make_segments(alloc: Global, g: &Geometry) -> Result<Vec<Segment>, AllocError>
    ensures { IfOk result (λ segments. segments.items ≡ new_segments g.now) }
{
    let mut segments = Vec::new(alloc);
    for _ in 0..g.segments {
        segments.push(Segment::new(alloc, g.buckets)?)?;
    }
    Ok(segments)
}

// Takes out of each segment the entries that stand for no place from one place on and below another.
fn clean_all(segments: &mut Vec<Segment>, beside: &Beside, low: u64, high: u64)
    ensures { AreCleaned beside.now.geometry beside.now.cursor low high
        segments.old.items segments.new.items }
{
    for i in 0..segments.len() {
        clean(&mut segments[i], beside, low, high);
    }
}

// A law for proofs: how many entries and free slots each segment has.
fn all_counted(segments: &[Segment])
    ensures { (k : ℕ) → k < length segments.now → AreCounted (segment_at segments.now k) }
{
    for i in 0..segments.len() {
        segments[i].is_counted();
    }
}

// Tells the places of the entries that went out.
fn tell(beside: &Beside, purge: &PurgeList, displaced: &mut Displaced)
    requires blocks { All (λ e. has_block beside.now.geometry e ≡ true) purge.now.entries }
    requires none { displaced.old.told.places ≡ [] }
    requires room { length purge.now.entries ≤ displaced.old.room }
    ensures told { displaced.new.told ≡ record displaced.old.told {
      places = map (place_of_entry beside.now.geometry beside.now.cursor) purge.now.entries;
    } }
    ensures room { displaced.new.room ≡ displaced.old.room }
{
    for i in 0..purge.len() {
        displaced.push(beside.place_of(&purge.get(i)));
    }
}

impl PackedDirectory {
    /// A directory with no row, whose free slots stand in rising order.
    pub fn empty(alloc: Global, g: &Geometry) -> Result<PackedDirectory, AllocError>
        ensures first { IfOk result (λ d. d ≡ first_packed g.now (new_segments g.now)) }
        ensures rows { IfOk result (λ d. packed_rows d ≡ []) }
    {
        let segments = make_segments(alloc, g)?;
        let beside = Beside {
            geometry: *g,
            cursor: g.content,
        };
        assemble(alloc, beside, floor_of(g, g.content), segments)
    }

    // Begins a walk over all rows.
    fn begin_all(&self) -> AllWalk
        ensures walk { IsAllWalk self.now result }
        ensures rows { rows_ahead self.now result ≡ packed_rows self.now }
    {
        let _ = &self.floor;
        AllWalk {
            segment: 0,
            bucket: 0,
            after: None,
        }
    }

    // Goes on to the next bucket, where no row of its own is left.
    fn pass_bucket(&self, walk: &mut AllWalk)
        requires walk { IsAllWalk self.now walk.old }
        requires within { walk.old.segment < self.now.geometry.segments }
        requires over { chain_left self.now walk.old ≡ [] }
        ensures walk { IsAllWalk self.now walk.new }
        ensures rows { rows_ahead self.now walk.new ≡ rows_ahead self.now walk.old }
        ensures fewer { let g = self.now.geometry in
            buckets_ahead g walk.new < buckets_ahead g walk.old }
    {
        walk.after = None;
        if walk.bucket + 1 < self.beside.geometry.buckets {
            walk.bucket += 1;
            return;
        }
        walk.segment += 1;
        walk.bucket = 0;
    }

    // The next row of the bucket at which a walk over all stands.
    fn next_of_bucket(&self, walk: &mut AllWalk) -> Option<StoredRow>
        requires walk { IsAllWalk self.now walk.old }
        requires within { walk.old.segment < self.now.geometry.segments }
        ensures walk { IsAllWalk self.now walk.new }
        ensures some { IfSome result (λ row.
            rows_ahead self.now walk.old ≡ row ∷ rows_ahead self.now walk.new) }
        ensures none { IfNone result (walk.new ≡ walk.old) }
        ensures over { IfNone result (chain_left self.now walk.old ≡ []) }
    {
        let segment = &self.segments[walk.segment as usize];
        match segment.chain(walk.bucket, walk.after) {
            None => None,
            Some((slot, entry)) => {
                walk.after = Some(slot);
                Some(self.beside.row_of(walk.segment, walk.bucket, &entry))
            }
        }
    }

    // The next row of a walk over all.
    fn next_of_all(&self, walk: &mut AllWalk) -> Option<StoredRow>
        requires { IsAllWalk self.now walk.old }
        ensures walk { IsAllWalk self.now walk.new }
        ensures gives { GivesFirst (rows_ahead self.now walk.old) result (rows_ahead self.now walk.new) }
    {
        while walk.segment < self.beside.geometry.segments {
            let row = self.next_of_bucket(walk);
            if row.is_some() {
                return row;
            }
            self.pass_bucket(walk);
        }
        None
    }

    // Takes one row of this segment, bucket, tag and place out, and says whether one stood there.
    fn take_plain(&mut self, row: &DirRow) -> bool
        ensures found { result ≡ has_row row.now (plain_rows (packed_rows self.old)) }
        ensures gone { OnTrue result
            (LosesPlain row.now (packed_rows self.old) (packed_rows self.new)) }
        ensures none { result ≡ false → self.new ≡ self.old }
        ensures tape { self.new ≡ record self.old { segments = self.new.segments } }
    {
        let spot = Spot {
            segment: row.segment,
            bucket: row.bucket,
            tag: row.tag,
        };
        self.take_row(&spot, row.place)
    }

    // Takes the row of a segment, a bucket and a tag at a place out, and says whether it stood there.
    fn take_row(&mut self, spot: &Spot, place: u64) -> bool
        ensures found { let s = spot.now in
            result ≡ list_any (is_row s.segment s.bucket s.tag place) (packed_rows self.old) }
        ensures gone { let s = spot.now in
            result ≡ true → LosesRow (is_row s.segment s.bucket s.tag place)
            (packed_rows self.old) (packed_rows self.new) }
        ensures none { result ≡ false → self.new ≡ self.old }
        ensures tape { self.new ≡ record self.old { segments = self.new.segments } }
    {
        let g = &self.beside.geometry;
        if spot.segment >= g.segments || spot.bucket >= g.buckets {
            return false;
        }
        if place < self.floor || lap(g, place) > lap(g, self.beside.cursor) {
            return false;
        }
        take_out(&self.beside, &mut self.segments, spot, place)
    }

    /// A law for proofs: each row stands in a bucket, and may be read; its entry has the block and the
    /// phase of its place.
    pub fn rows_are_readable(&self)
        ensures rows { let d = self.now in
            All (IsReadable d.geometry d.cursor d.floor d.end) (packed_rows d) }
        ensures entries { let d = self.now in All (AreOfPlaces d.geometry d.cursor) d.segments }
    {
        let _ = &self.floor;
    }

    // Writes the bytes of an image for a cursor that is to come: up to the end of the cursor's lap.
    fn write_image(&self, cursor: u64, into: &mut [u8])
        requires len { length into.old ≡ 512 * image_blocks_of self.now.geometry }
        requires next { (self.now.end ≤ cursor)
            × (cursor ≤ lap_end_of self.now.geometry self.now.cursor) }
        ensures sound { IsImageOfSegments self.now.geometry into.new }
        ensures low { let g = self.now.geometry in least_place g cursor ≤ cursor - g.content }
        ensures rows { means self.now.geometry cursor into.new
            ≡ stored_from (least_place self.now.geometry cursor) (packed_rows self.now) }
        ensures zero { let g = self.now.geometry in let end = g.segments * segment_length g in
            drop end into.new ≡ replicate (length into.old - end) 0 }
    {
        let _ = cursor;
        write_segments(&self.beside.geometry, &self.segments, into);
    }

    // The directory of an image beside its cursor: the rows that it means, from the floor on.
    fn read_image(
        alloc: Global,
        g: &Geometry,
        cursor: u64,
        floor: u64,
        bytes: &[u8],
    ) -> Result<PackedDirectory, ImageFault>
        requires len { length bytes.now ≡ 512 * image_blocks_of g.now }
        requires cursor { IsCursor g.now.content cursor }
        requires floor { (least_place g.now cursor ≤ floor) × (floor ≤ cursor) }
        ensures rows { IfOk result (λ d.
            packed_rows d ≡ stored_from floor (means g.now cursor bytes.now)) }
        ensures tape { IfOk result (λ d. d ≡ record {
          geometry = g.now;
          cursor = cursor;
          floor = floor;
          end = cursor;
          segments = d.segments;
          out = none_displaced;
        }) }
        ensures sound { OnOk result (IsImageOfSegments g.now bytes.now) }
        ensures fault { IfErr result (λ f. IsImageFault g.now bytes.now f) }
    {
        let mut segments = read_segments(alloc, g, bytes)?;
        let beside = Beside {
            geometry: *g,
            cursor,
        };
        clean_all(&mut segments, &beside, floor, cursor);
        let directory = assemble(alloc, beside, floor, segments)?;
        Ok(directory)
    }

    // How many entries stand on the chains of an image.
    fn count_image(alloc: Global, g: &Geometry, bytes: &[u8]) -> Result<u64, ImageFault>
        requires len { length bytes.now ≡ 512 * image_blocks_of g.now }
        ensures count { IfOk result (λ n. n ≡ entries_in (image_segments g.now bytes.now)) }
        ensures sound { OnOk result (IsImageOfSegments g.now bytes.now) }
        ensures fault { IfErr result (λ f. IsImageFault g.now bytes.now f) }
    {
        let segments = read_segments(alloc, g, bytes)?;
        Ok(count_entries(&segments))
    }
}

impl Directory for PackedDirectory {
    ghost use Rattle.std.specs.Prelude.{◌^◌, true, length};
    ghost use Rattle.packed_directory.specs.Packed.{packed_rows, purge_places, window_of};
    ghost use Rattle.packed_directory.specs.PackedWalks.{IsWalk, chain_ahead, places_ahead};

    ghost rows = { packed_rows };

    ghost window = { window_of };

    ghost spare = { λ _. 2 ^ 64 };

    ghost purges = { true };

    ghost due = { purge_places };

    ghost displaced = { λ d. d.out };

    ghost walks = { IsWalk };

    ghost rest = { places_ahead };

    ghost ahead = { λ d walk. length (chain_ahead d walk) };

    fn new(alloc: Global, g: &Geometry) -> Result<Self, AllocError> {
        PackedDirectory::empty(alloc, g)
    }

    fn reserve(&mut self, _more: usize) -> Result<(), AllocError> {
        Ok(())
    }

    // Where the bucket is full, every tenth of the entries behind the roots of its segment goes out
    // first.
    fn insert(&mut self, key: Key, place: u64, blocks: u32, head: bool, pinned: bool) {
        let row = StoredRow::of_piece(&self.beside.geometry, key, place, blocks, head, pinned);
        let live = self.segments[row.segment as usize].used();
        self.displaced.begin(row.segment, live as u64);
        enter(&self.beside, &mut self.segments, &row, &mut self.purge);
        tell(&self.beside, &self.purge, &mut self.displaced);
        self.end = place + blocks as u64;
    }

    fn displaced(&self) -> &Displaced {
        &self.displaced
    }

    fn delete(&mut self, key: Key, place: u64) -> bool {
        let row = DirRow::of_key(&self.beside.geometry, key, place);
        self.take_plain(&row)
    }

    fn candidates(&self, key: Key) -> Walk {
        Walk {
            spot: Spot::of_key(&self.beside.geometry, key),
            next: Some(0),
        }
    }

    fn step(&self, walk: &mut Walk, steps: &mut Steps) -> Option<u64> {
        let next = walk.next?;
        // The counter is below 2^64.
        let _taken = steps.count();
        let segment = &self.segments[walk.spot.segment as usize];
        match segment.probe(walk.spot.bucket, walk.spot.tag, slot_before(next), steps) {
            None => {
                walk.next = None;
                None
            }
            Some((slot, entry)) => {
                walk.next = Some(slot as u64 + 1);
                Some(self.beside.place_of(&entry))
            }
        }
    }

    fn in_range(&self, place: u64) -> bool {
        self.floor <= place && place < self.end
    }

    fn wrap(&mut self, cursor: u64, floor: u64) {
        clean_all(&mut self.segments, &self.beside, floor, cursor);
        self.beside = Beside {
            geometry: self.beside.geometry,
            cursor,
        };
        self.floor = floor;
        self.end = cursor;
    }

    fn rows_fit(&self) {
        all_counted(&self.segments);
    }
}

impl StoredDirectory for PackedDirectory {
    ghost use Rattle.packed_directory.specs.FirstFault.{no_image, one_fault};
    ghost use Rattle.packed_directory.specs.AllWalks.{IsAllWalk, rows_ahead};
    ghost use Rattle.packed_directory.specs.PackedImage.{image_blocks_of, segments_length, image_segments, entries_in, means, IsImageOfSegments, IsImageFault};

    ghost blocks = { image_blocks_of };

    ghost telling = { segments_length };

    ghost is_image = { IsImageOfSegments };

    ghost refuses = { IsImageFault };

    ghost means = { means };

    ghost stored = { λ g bytes. entries_in (image_segments g bytes) };

    ghost walks_all = { IsAllWalk };

    ghost left = { rows_ahead };

    ghost accepted = { no_image };

    ghost first = { one_fault };

    fn image_blocks(g: &Geometry) -> u64 {
        (g.segments as u64 * (4 + 40 * g.buckets as u64)).div_ceil(512)
    }

    fn image(&self, cursor: u64, into: &mut [u8]) {
        self.write_image(cursor, into);
    }

    fn from_image(
        alloc: Global,
        g: &Geometry,
        cursor: u64,
        floor: u64,
        bytes: &[u8],
    ) -> Result<Self, ImageFault> {
        PackedDirectory::read_image(alloc, g, cursor, floor, bytes)
    }

    fn entries(alloc: Global, g: &Geometry, bytes: &[u8]) -> Result<u64, ImageFault> {
        PackedDirectory::count_image(alloc, g, bytes)
    }

    fn all(&self) -> AllWalk {
        self.begin_all()
    }

    fn step_all(&self, walk: &mut AllWalk) -> Option<StoredRow> {
        self.next_of_all(walk)
    }

    fn delete_row(&mut self, row: &DirRow) -> bool {
        self.take_plain(row)
    }
}
