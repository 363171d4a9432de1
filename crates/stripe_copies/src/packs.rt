// Directories whose images are those of the packed one.
ghost use Rattle.std.specs.Prelude.{◌≡◌, ℕ, List};
ghost use Rattle.tape_base.specs.declared.geometries.Geometry.{Geometry as GeometryValue};
ghost use Rattle.tape_base.specs.Place.{directory_blocks_of};
ghost use Rattle.packed_directory.specs.PackedImage.{IsImageOfSegments, means};

use packed_directory::{PackedDirectory, StoredDirectory};

/// A stored directory whose images are entries in segments, as an opening reads them.
pub trait PacksEntries: StoredDirectory {
    ghost packed_blocks: { (g : GeometryValue) → Self.blocks g ≡ directory_blocks_of g };

    ghost packed_image: { (g : GeometryValue) (bytes : List ℕ)
        → Self.is_image g bytes → IsImageOfSegments g bytes };

    ghost packed_means: { (g : GeometryValue) (cursor : ℕ) (bytes : List ℕ)
        → Self.means g cursor bytes ≡ means g cursor bytes };
}

impl PacksEntries for PackedDirectory {
    ghost use Rattle.std.specs.Prelude.{refl};
    ghost use Rattle.stripe_copies.specs.Packs.{blocks_packed};

    ghost packed_blocks = { blocks_packed };

    ghost packed_image = { λ g bytes is. is };

    ghost packed_means = { λ g cursor bytes. refl };
}
