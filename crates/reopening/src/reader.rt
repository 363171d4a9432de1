// The slow reader: what an image opens to.
ghost use Rattle.std.specs.Prelude.{◌≡◌, ◌≤◌, ◌<◌, ◌+◌, ◌-◌, ◌*◌, ◌^◌, ℕ, Some, length, IfOk, IfErr, IsTrue};
ghost use Rattle.stripe_header.specs.Layout.{device_blocks};
ghost use Rattle.stripe_header.specs.Spelling.{may_say};
ghost use Rattle.packed_directory.specs.PackedImage.{image_blocks_of};
ghost use Rattle.reopening.specs.Slices.{image_of};
ghost use Rattle.reopening.specs.Newest.{newest_of};
ghost use Rattle.reopening.specs.Opens.{found_of, opening_with, opens_to};
ghost use Rattle.reopening.specs.Faults.{DroppedAreCounted, IsOpenFault, opening_fault, opening_of};

use crate::later::kept_rows;
use crate::newest::{Newest, bound_of, directory_at, newest_of};
use crate::rows::rows_told;
use crate::standing::standing_from;
use cache_model::FoundList;
use dir_segment::SegmentFault;
use dir_table::StoredRow;
use packed_directory::ImageFault;
use std::alloc::{AllocError, Global};
use stripe_header::{Area, CopyFault, CopyState, Side};
use thiserror::Error;

/// What an image opens to.
#[derive(Debug, Drop)]
pub struct Opened {
    pub newest: Newest,
    /// The place below which nothing was looked for.
    pub floor: u64,
    /// The pieces that stand from there on, in rising place.
    pub found: FoundList,
    /// How many elements of the directory at or above the floor were not kept.
    pub dropped: u64,
}

/// Why an image does not open.
#[derive(Debug, Drop, Error)]
pub enum OpenFault {
    #[error("neither copy of the directory is accepted: of copy A, {a}; of copy B, {b}")]
    NoCopy {
        a: CopyFault,
        b: CopyFault,
    },
    #[error("copy {side:?} is the newest, and segment {segment} of its directory is refused: {fault}")]
    BadDirectory {
        side: Side,
        segment: u32,
        fault: SegmentFault,
    },
    #[error("out of memory")]
    Memory(AllocError),
}

impl From<AllocError> for OpenFault {
    ghost use Rattle.reopening.specs.declared.reader.OpenFault.TheVariants as faults;

    ghost from_gives = { λ e f. f ≡ faults.Memory e };

    fn from(e: AllocError) -> OpenFault {
        OpenFault::Memory(e)
    }
}

// The rows that are kept of these elements.
#[tactic(auto, unfolding(crate::specs::Opens::found_of))]
fn found_of(
    alloc: Global,
    area: &Area,
    told: &CopyState,
    rows: &[StoredRow],
    image: &[u8],
) -> Result<FoundList, AllocError>
    requires whole { length image.now ≡ 512 * device_blocks area.now }
    requires says { IsTrue (may_say area.now.geometry told.now) }
    ensures { IfOk result (λ found. found
        ≡ found_of area.now told.now rows.now (image_of image.now)) }
{
    let low = bound_of(&area.geometry, told);
    let all = standing_from(alloc, area, told, rows, image, low)?;
    kept_rows(alloc, all)
}

// The fault of a copy's directory.
fn fault_of(side: Side, fault: ImageFault) -> OpenFault
    ensures { result ≡ opening_fault side fault }
{
    match fault {
        ImageFault::Segment { number, fault } => OpenFault::BadDirectory {
            side,
            segment: number,
            fault,
        },
        ImageFault::Memory(e) => OpenFault::Memory(e),
    }
}

// What the newest copy opens to with these elements.
fn open_with(
    alloc: Global,
    area: &Area,
    image: &[u8],
    newest: Newest,
    rows: &[StoredRow],
) -> Result<Opened, AllocError>
    requires whole { length image.now ≡ 512 * device_blocks area.now }
    requires says { IsTrue (may_say area.now.geometry newest.told) }
    ensures opened { IfOk result (λ o. opening_of o ≡ opening_with area.now.geometry newest.told
        (found_of area.now newest.told rows.now (image_of image.now))) }
    ensures newest { IfOk result (λ o. o.newest ≡ newest) }
    ensures dropped { IfOk result (λ o. o.dropped ≡ length rows.now
        - length (found_of area.now newest.told rows.now (image_of image.now))) }
{
    let found = found_of(alloc, area, &newest.told, rows, image)?;
    let dropped = rows.len().saturating_sub(found.len()) as u64;
    Ok(Opened {
        newest,
        floor: bound_of(&area.geometry, &newest.told),
        found,
        dropped,
    })
}

// Opens the newest copy.
fn open_newest(
    alloc: Global,
    area: &Area,
    image: &[u8],
    newest: Newest,
) -> Result<Opened, OpenFault>
    requires whole { length image.now ≡ 512 * device_blocks area.now }
    requires directory { area.now.directory ≡ image_blocks_of area.now.geometry }
    requires says { IsTrue (may_say area.now.geometry newest.told) }
    requires newest { newest_of area.now (image_of image.now) ≡ Some newest }
    ensures opened { IfOk result (λ o. opens_to area.now (image_of image.now)
        ≡ Some (opening_of o)) }
    ensures dropped { IfOk result (λ o. DroppedAreCounted area.now (image_of image.now) o) }
    ensures fault { IfErr result (λ f. IsOpenFault area.now (image_of image.now) f) }
{
    let bytes = directory_at(area, image, newest.side);
    match rows_told(alloc, &area.geometry, &newest.told, bytes) {
        Ok(rows) => Ok(open_with(alloc, area, image, newest, &rows)?),
        Err(fault) => Err(fault_of(newest.side, fault)),
    }
}

/// Reads what an image opens to. Its time is quadratic in the blocks of a lap and the entries of the
/// directory; no faster way is looked for.
pub fn open_image(alloc: Global, area: &Area, image: &[u8]) -> Result<Opened, OpenFault>
    requires whole { length image.now ≡ 512 * device_blocks area.now }
    requires directory { area.now.directory ≡ image_blocks_of area.now.geometry }
    ensures opened { IfOk result (λ o. opens_to area.now (image_of image.now)
        ≡ Some (opening_of o)) }
    ensures dropped { IfOk result (λ o. DroppedAreCounted area.now (image_of image.now) o) }
    ensures fault { IfErr result (λ f. IsOpenFault area.now (image_of image.now) f) }
{
    match newest_of(area, image) {
        Ok(newest) => open_newest(alloc, area, image, newest),
        Err((a, b)) => Err(OpenFault::NoCopy { a, b }),
    }
}
