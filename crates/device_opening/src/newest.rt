// The newest copy, and the elements of its directory.
ghost use Rattle.std.specs.Prelude.{◌≡◌, ◌≤◌, ◌-◌, ◌*◌, length, IfErr, IfOk, OnOk};
ghost use Rattle.std.specs.List.Sorted.{IsPermutation};
ghost use Rattle.device_log.specs.Image.{Image, IsImage};
ghost use Rattle.stripe_header.specs.Layout.{body_blocks};
ghost use Rattle.stripe_header.specs.Reading.{block_bytes};
ghost use Rattle.packed_directory.specs.PackedImage.{image_blocks_of, IsImageFault, IsImageOfSegments};
ghost use Rattle.reopening.specs.Faults.{IsOpenFault, opening_fault};
ghost use Rattle.reopening.specs.Opens.{rows_told};
ghost use Rattle.device_opening.specs.Copies.{AreCopiesOf, AreRowsOf, IsChosen, IsRefusal, IsTaken, MaySay, TakenSays, is_shut};

use crate::copies::{Copies, CopyRead};
use dir_table::StoredRow;
use logged_disk::BLOCK_BYTES;
use packed_directory::ImageFault;
use reopening::{Newest, OpenFault, rows_told};
use std::alloc::Global;
use stripe_header::{Area, CopyFault, CopyState, Side};
use tape_base::Geometry;

/// The copy that an opening takes.
#[derive(Debug, Drop)]
pub struct Taken {
    pub newest: Newest,
    pub body: Vec<u8>,
    /// Whether the other copy is behind a shut gate.
    pub shut: bool,
}

/// The same, with the elements of its directory at or above the bound.
#[derive(Debug, Drop)]
pub struct Chosen {
    pub taken: Taken,
    pub rows: Vec<StoredRow>,
}

fn is_shut(fault: CopyFault) -> bool
    ensures { result ≡ is_shut fault }
{
    match fault {
        CopyFault::GateShut => true,
        _ => false,
    }
}

fn take_copy(side: Side, told: CopyState, body: Vec<u8>, shut: bool) -> Taken
    ensures newest { result.newest ≡ record { side = side; told = told } }
    ensures body { result.body ≡ body }
    ensures shut { result.shut ≡ shut }
{
    Taken {
        newest: Newest { side, told },
        body,
        shut,
    }
}

// That of the two with the greater serial, copy A where they are equal; or the faults of both.
fn take_newest(area: &Area, copies: Copies) -> Result<Taken, (CopyFault, CopyFault)>
    requires a { MaySay area.now.geometry (512 * body_blocks area.now) copies.a }
    requires b { MaySay area.now.geometry (512 * body_blocks area.now) copies.b }
    ensures taken { IfOk result (λ t. (c : Image) → AreCopiesOf area.now copies c → IsTaken area.now c t) }
    ensures says { IfOk result (TakenSays area.now) }
    ensures faults { IfErr result (λ f. (c : Image) → AreCopiesOf area.now copies c → IsRefusal area.now c f.0 f.1) }
{
    let _ = area;
    match (copies.a, copies.b) {
        (CopyRead::Refused(a), CopyRead::Refused(b)) => Err((a, b)),
        (CopyRead::Told { state, body }, CopyRead::Refused(fault)) => {
            Ok(take_copy(Side::A, state, body, is_shut(fault)))
        }
        (CopyRead::Refused(fault), CopyRead::Told { state, body }) => {
            Ok(take_copy(Side::B, state, body, is_shut(fault)))
        }
        (
            CopyRead::Told {
                state: a,
                body: one,
            },
            CopyRead::Told {
                state: b,
                body: other,
            },
        ) => {
            if a.serial < b.serial {
                Ok(take_copy(Side::B, b, other, false))
            } else {
                Ok(take_copy(Side::A, a, one, false))
            }
        }
    }
}

// The directory in a body.
#[tactic(auto, unfolding(stripe_header::specs::Reading::block_bytes))]
fn directory_in(body: &[u8]) -> &[u8]
    requires { 1024 ≤ length body.now }
    ensures bytes { result.now ≡ block_bytes 512 (length body.now - 1024) body.now }
    ensures len { length result.now ≡ length body.now - 1024 }
{
    let (_, behind) = body.split_at(BLOCK_BYTES);
    let (directory, _) = behind.split_at(behind.len() - BLOCK_BYTES);
    directory
}

// The fault of a copy's directory.
fn directory_fault(side: Side, fault: ImageFault) -> OpenFault
    ensures { result ≡ opening_fault side fault }
{
    match fault {
        ImageFault::Segment { number, fault } => OpenFault::BadDirectory {
            side,
            segment: number,
            fault,
        },
        ImageFault::Memory(e) => OpenFault::Memory(e),
    }
}

// The elements of the directory of the copy that is taken.
fn rows_of(alloc: Global, area: &Area, taken: &Taken) -> Result<Vec<StoredRow>, OpenFault>
    requires directory { area.now.directory ≡ image_blocks_of area.now.geometry }
    requires says { TakenSays area.now taken.now }
    ensures rows { IfOk result (λ rows. (c : Image) → IsImage c → IsTaken area.now c taken.now → AreRowsOf area.now c taken.now rows.items) }
    ensures fault { IfErr result (λ f. (c : Image) → IsImage c → IsTaken area.now c taken.now → IsOpenFault area.now c f) }
{
    let bytes = directory_in(&taken.body);
    match rows_told(alloc, &area.geometry, &taken.newest.told, bytes) {
        Ok(rows) => Ok(rows),
        Err(fault) => Err(directory_fault(taken.newest.side, fault)),
    }
}

/// Chooses the copy that an opening takes, and reads the elements of its directory.
pub(crate) fn choose(alloc: Global, area: &Area, copies: Copies) -> Result<Chosen, OpenFault>
    requires directory { area.now.directory ≡ image_blocks_of area.now.geometry }
    requires a { MaySay area.now.geometry (512 * body_blocks area.now) copies.a }
    requires b { MaySay area.now.geometry (512 * body_blocks area.now) copies.b }
    ensures chosen { IfOk result (λ chosen. (c : Image) → IsImage c → AreCopiesOf area.now copies c → IsChosen area.now c chosen) }
    ensures says { IfOk result (λ chosen. TakenSays area.now chosen.taken) }
    ensures fault { IfErr result (λ f. (c : Image) → IsImage c → AreCopiesOf area.now copies c → IsOpenFault area.now c f) }
{
    let taken = match take_newest(area, copies) {
        Ok(taken) => taken,
        Err((a, b)) => return Err(OpenFault::NoCopy { a, b }),
    };
    let rows = rows_of(alloc, area, &taken)?;
    Ok(Chosen { taken, rows })
}
