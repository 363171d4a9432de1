// Images from outside, and what they say.
ghost use Rattle.std.specs.Prelude.{◌≡◌, ◌≤◌, ◌*◌, true};
ghost use Rattle.packed_directory.specs.PackedImage.{image_blocks_of};
ghost use Rattle.packed_directory.specs.Phases.{IsCursor, least_place};

use packed_directory::{ImageFault, PackedDirectory, StoredDirectory};
use std::alloc::Global;
use tape_base::{Geometry, lap, lap_end};

// Cursors are below this place.
const LAST: u64 = 1 << 62;

// Whether entries can be read beside the cursor, from the floor on.
fn may_read(g: &Geometry, cursor: u64, floor: u64) -> bool
    ensures cursor { result ≡ true → IsCursor g.now.content cursor }
    ensures floor { result ≡ true → (least_place g.now cursor ≤ floor) × (floor ≤ cursor) }
{
    if cursor < g.content || cursor >= LAST || floor > cursor {
        return false;
    }
    match lap(g, cursor).checked_sub(1) {
        None => false,
        Some(before) => match g.content.checked_mul(before) {
            None => false,
            Some(least) => least <= floor,
        },
    }
}

/// The directory of an image, or its first fault; none where the numbers or the length do not fit.
pub fn read_image(
    alloc: Global,
    g: &Geometry,
    cursor: u64,
    floor: u64,
    bytes: &[u8],
) -> Option<Result<PackedDirectory, ImageFault>> {
    let len = 512 * PackedDirectory::image_blocks(g);
    if bytes.len() as u64 != len || !may_read(g, cursor, floor) {
        return None;
    }
    Some(PackedDirectory::from_image(alloc, g, cursor, floor, bytes))
}

/// How many entries an image has, or its first fault; none where the length does not fit.
pub fn count_image(alloc: Global, g: &Geometry, bytes: &[u8]) -> Option<Result<u64, ImageFault>> {
    if bytes.len() as u64 != 512 * PackedDirectory::image_blocks(g) {
        return None;
    }
    Some(PackedDirectory::entries(alloc, g, bytes))
}

/// The bytes of an image.
pub fn image_length(g: &Geometry) -> usize
    ensures { result ≡ 512 * image_blocks_of g.now }
{
    512 * PackedDirectory::image_blocks(g) as usize
}

/// Whether the directory of an image gives the same bytes at the same cursor.
pub fn is_written_again(
    alloc: Global,
    g: &Geometry,
    cursor: u64,
    floor: u64,
    bytes: &[u8],
) -> Result<bool, ImageFault> {
    let len = image_length(g);
    if bytes.len() != len || !may_read(g, cursor, floor) || lap_end(g, cursor) < cursor {
        return Ok(false);
    }
    let directory = PackedDirectory::from_image(alloc, g, cursor, floor, bytes)?;
    let mut again = vec![in alloc; 255; len]?;
    directory.image(cursor, &mut again);
    Ok(again.as_slice() == bytes)
}
