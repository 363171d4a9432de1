// The elements of a copy's directory.
ghost use Rattle.std.specs.Prelude.{◌≡◌, ◌≤◌, ◌<◌, ◌*◌, ◌+◌, ◌^◌, length, IfOk, IfErr, OnOk, IsTrue};
ghost use Rattle.std.specs.List.Sorted.{IsPermutation};
ghost use Rattle.stripe_header.specs.Spelling.{may_say};
ghost use Rattle.packed_directory.specs.Packed.{packed_rows};
ghost use Rattle.packed_directory.specs.PackedImage.{image_blocks_of, IsImageOfSegments, IsImageFault};
ghost use Rattle.reopening.specs.Opens.{rows_told};

use crate::newest::bound_of;
use dir_table::StoredRow;
use packed_directory::{ImageFault, PackedDirectory, StoredDirectory};
use std::alloc::{AllocError, Global};
use stripe_header::CopyState;
use tape_base::Geometry;

fn all_rows(alloc: Global, directory: &PackedDirectory) -> Result<Vec<StoredRow>, AllocError>
    ensures { IfOk result (λ rows. IsPermutation (packed_rows directory.now) rows.items) }
{
    let mut rows = Vec::new(alloc);
    let mut walk = directory.all();
    while let Some(row) = directory.step_all(&mut walk) {
        rows.push(row)?;
    }
    Ok(rows)
}

/// The elements at or above the bound, in some order.
#[tactic(auto, unfolding(crate::specs::Opens::rows_told))]
pub fn rows_told(
    alloc: Global,
    g: &Geometry,
    told: &CopyState,
    bytes: &[u8],
) -> Result<Vec<StoredRow>, ImageFault>
    requires len { length bytes.now ≡ 512 * image_blocks_of g.now }
    requires says { IsTrue (may_say g.now told.now) }
    ensures rows { IfOk result (λ rows.
        IsPermutation (rows_told g.now told.now bytes.now) rows.items) }
    ensures sound { OnOk result (IsImageOfSegments g.now bytes.now) }
    ensures fault { IfErr result (λ f. IsImageFault g.now bytes.now f) }
{
    let low = bound_of(g, told);
    let directory = PackedDirectory::from_image(alloc, g, told.cursor, low, bytes)?;
    Ok(all_rows(alloc, &directory)?)
}
