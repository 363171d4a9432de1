// A directory that has an image on a device.
ghost use Rattle.std.specs.Prelude.{◌≡◌, false, ℕ, ◌-◌, ◌*◌, ◌^◌, ◌≤◌, List, length, drop, replicate, IfOk, IfErr, OnOk};
ghost use Rattle.std.specs.Bool.{OnTrue};
ghost use Rattle.std.specs.List.Sorted.{IsPermutation};
ghost use Rattle.tape_base.specs.Place.{lap_end_of};
ghost use Rattle.tape_base.specs.declared.geometries.Geometry.{Geometry as GeometryValue};
ghost use Rattle.dir_segment.specs.declared.fault.SegmentFault.{SegmentFault as SegmentFaultValue};
ghost use Rattle.packed_directory.specs.declared.fault.ImageFault.{ImageFault as ImageFaultValue};
ghost use Rattle.packed_directory.specs.declared.fault.ImageFault.TheVariants.{Segment};
ghost use Rattle.packed_directory.specs.declared.walks.AllWalk.{AllWalk as AllWalkValue};
ghost use Rattle.dir_table.specs.declared.rows.StoredRow.{StoredRow};
ghost use Rattle.dir_table.specs.Candidates.{GivesFirst};
ghost use Rattle.dir_table.specs.Displacement.{none_displaced};
ghost use Rattle.dir_table.specs.Rows.{has_row, plain_rows, LosesPlain};
ghost use Rattle.dir_table.specs.Wrap.{stored_from};
ghost use Rattle.packed_directory.specs.Phases.{IsCursor, least_place};
ghost use Rattle.packed_directory.specs.Stored.{Tells};

use crate::fault::ImageFault;
use crate::walks::AllWalk;
use dir_table::{DirRow, Directory, StoredRow};
use std::alloc::Global;
use tape_base::Geometry;

/// A directory that is written as an image of whole blocks, and read back beside a cursor.
pub trait StoredDirectory: Directory + Sized {
    /// The blocks of an image.
    ghost blocks: { GeometryValue → ℕ };

    /// The bytes of an image that tell rows: up to the last block's end the others are zero.
    ghost telling: { GeometryValue → ℕ };

    /// Bytes are an image.
    ghost is_image: { GeometryValue → List ℕ → Type 0 };

    /// Bytes are no image, and this is their first fault, or memory ran out.
    ghost refuses: { GeometryValue → List ℕ → ImageFaultValue → Type 0 };

    /// The rows that an image tells beside a cursor, each as often as it stands there.
    ghost means: { GeometryValue → ℕ → List ℕ → List StoredRow };

    /// How many entries an image has.
    ghost stored: { GeometryValue → List ℕ → ℕ };

    /// A walk over all rows was made of this state.
    ghost walks_all: { Self → AllWalkValue → Type 0 };

    /// The rows that such a walk has left.
    ghost left: { Self → AllWalkValue → List StoredRow };

    fn image_blocks(g: &Geometry) -> u64
        ensures count { result ≡ blocks g.now }
        ensures some { 1 ≤ result }
        ensures few { result ≤ 2 ^ 40 };

    /// Writes an image for a cursor that is to come, up to the end of the lap.
    fn image(&self, cursor: u64, into: &mut [u8])
        requires len { length into.old ≡ 512 * blocks (Self.window self.now).geometry }
        requires next { let t = Self.window self.now in
            (t.end ≤ cursor) × (cursor ≤ lap_end_of t.geometry t.cursor) }
        ensures sound { is_image (Self.window self.now).geometry into.new }
        ensures rows { let g = (Self.window self.now).geometry in
            Tells (cursor - g.content) (Self.rows self.now) (means g cursor into.new) }
        ensures zero { let end = telling (Self.window self.now).geometry in
            drop end into.new ≡ replicate (length into.old - end) 0 };

    /// The directory of an image, beside its cursor, from a floor on.
    fn from_image(
        alloc: Global,
        g: &Geometry,
        cursor: u64,
        floor: u64,
        bytes: &[u8],
    ) -> Result<Self, ImageFault>
        requires len { length bytes.now ≡ 512 * blocks g.now }
        requires cursor { IsCursor g.now.content cursor }
        requires floor { (least_place g.now cursor ≤ floor) × (floor ≤ cursor) }
        ensures rows { IfOk result (λ d.
            IsPermutation (stored_from floor (means g.now cursor bytes.now)) (Self.rows d)) }
        ensures window { IfOk result (λ d. Self.window d
            ≡ record { geometry = g.now; cursor = cursor; floor = floor; end = cursor }) }
        ensures displaced { IfOk result (λ d. Self.displaced d ≡ none_displaced) }
        ensures sound { OnOk result (is_image g.now bytes.now) }
        ensures fault { IfErr result (refuses g.now bytes.now) };

    /// How many entries an image has.
    fn entries(alloc: Global, g: &Geometry, bytes: &[u8]) -> Result<u64, ImageFault>
        requires len { length bytes.now ≡ 512 * blocks g.now }
        ensures count { IfOk result (λ n. n ≡ stored g.now bytes.now) }
        ensures sound { OnOk result (is_image g.now bytes.now) }
        ensures fault { IfErr result (refuses g.now bytes.now) };

    /// Begins a walk over all rows.
    fn all(&self) -> AllWalk
        ensures walk { walks_all self.now result }
        ensures rows { IsPermutation (Self.rows self.now) (left self.now result) };

    /// The next row of a walk over all.
    fn step_all(&self, walk: &mut AllWalk) -> Option<StoredRow>
        requires { walks_all self.now walk.old }
        ensures walk { walks_all self.now walk.new }
        ensures gives { GivesFirst (left self.now walk.old) result (left self.now walk.new) };

    /// Takes one row of this segment, bucket, tag and place out, and says whether one stood there.
    fn delete_row(&mut self, row: &DirRow) -> bool
        ensures found { result ≡ has_row row.now (plain_rows (Self.rows self.old)) }
        ensures gone { OnTrue result (LosesPlain row.now (Self.rows self.old) (Self.rows self.new)) }
        ensures none { result ≡ false → Self.rows self.new ≡ Self.rows self.old }
        ensures window { Self.window self.new ≡ Self.window self.old }
        ensures displaced { Self.displaced self.new ≡ Self.displaced self.old }
        ensures spare { Self.spare self.old ≤ Self.spare self.new };

    /// No image is refused.
    ghost accepted: { (g : GeometryValue) (bytes : List ℕ) (n : ℕ) (fault : SegmentFaultValue)
        → is_image g bytes → refuses g bytes (Segment n fault) → ⊥ };

    /// Bytes have one first fault.
    ghost first: { (g : GeometryValue) (bytes : List ℕ) (n m : ℕ) (f h : SegmentFaultValue)
        → refuses g bytes (Segment n f) → refuses g bytes (Segment m h) → (n ≡ m) × (f ≡ h) };
}
