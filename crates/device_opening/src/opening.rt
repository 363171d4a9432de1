// What a device opens to.
ghost use Rattle.std.specs.Prelude.{◌≡◌, ◌≤◌, ◌+◌, ◌*◌, length, IsTrue, IfErr, IfOk, OnOk};
ghost use Rattle.std.specs.List.Sorted.{IsPermutation};
ghost use Rattle.stripe_header.specs.Layout.{content_of, device_blocks};
ghost use Rattle.stripe_header.specs.Spelling.{may_say};
ghost use Rattle.reopening.specs.Opens.{found_of};
ghost use Rattle.device_reads.specs.Reads.{Fails, Reads};
ghost use Rattle.device_opening.specs.Copies.{IsLaid, TakenSays};
ghost use Rattle.device_opening.specs.Faults.{IsFaultWithin, WhereRead};
ghost use Rattle.device_opening.specs.Opening.{IsOpeningRead};
ghost use Rattle.device_opening.specs.Tape.{Ascend};

use crate::device::{NewestRead, read_newest};
use crate::fault::OpeningFault;
use crate::kept::kept_rows;
use crate::newest::Taken;
use crate::standing::read_standing;
use cache_model::FoundList;
use device_reads::ReadFault;
use dir_table::StoredRow;
use logged_disk::Disk;
use std::alloc::Global;
use stripe_header::{Area, CopyState};

/// What a device opens to, with what it was read by.
#[derive(Debug, Drop)]
pub struct OpeningRead {
    pub area: Area,
    pub taken: Taken,
    /// The elements of the directory at or above the bound, in rising place.
    pub rows: Vec<StoredRow>,
    /// The pieces that are kept of them, in rising place.
    pub found: FoundList,
    pub dropped: u64,
}

// Sorts elements by place.
fn by_place(rows: Vec<StoredRow>) -> Vec<StoredRow>
    ensures all { IsPermutation rows.items result.items }
    ensures ascend { Ascend 0 result.items }
{
    let mut rows = rows;
    rows.sort_unstable_by_key(|row| row.place);
    rows
}

// The pieces that an opening keeps of these elements.
#[tactic(auto, unfolding(reopening::specs::Opens::found_of))]
fn read_found<D: Disk>(
    alloc: Global,
    disk: &mut D,
    area: &Area,
    told: &CopyState,
    rows: &[StoredRow],
) -> Result<FoundList, ReadFault>
    requires room { device_blocks area.now ≤ (D.state disk.old).size }
    requires says { IsTrue (may_say area.now.geometry told.now) }
    requires ascend { Ascend 0 rows.now }
    ensures found { IfOk result (λ found. Reads (content_of area.now) (device_blocks area.now) (2 * length rows.now) (D.state disk.old) (D.state disk.new)
        (λ c. found ≡ found_of area.now told.now rows.now c)) }
    ensures unrefused { OnOk result ((D.state disk.new).faults ≡ (D.state disk.old).faults) }
    ensures fails { IfErr result (Fails (content_of area.now) (device_blocks area.now) (2 * length rows.now) (D.state disk.old) (D.state disk.new)) }
{
    let standing = read_standing(alloc, disk, area, told, rows)?;
    Ok(kept_rows(alloc, standing)?)
}

/// Reads what a device opens to. It is read alone, each block of it at most once.
pub fn read_opening<D: Disk>(alloc: Global, disk: &mut D) -> Result<OpeningRead, OpeningFault>
    // Whatever image its reads agree with, this is what that image opens to.
    ensures opens { IfOk result (λ r. let size = (D.state disk.old).size in
        Reads 0 size (4 + 2 * length r.rows.items) (D.state disk.old) (D.state disk.new) (IsOpeningRead size r)) }
    ensures laid { IfOk result (λ r. IsLaid (D.state disk.old).size r.area) }
    ensures says { IfOk result (λ r. TakenSays r.area r.taken) }
    ensures unrefused { WhereRead result ((D.state disk.new).faults ≡ (D.state disk.old).faults) }
    ensures fault { IfErr result (IsFaultWithin (D.state disk.old) (D.state disk.new)) }
{
    let NewestRead { area, chosen } = read_newest(alloc, disk)?;
    let rows = by_place(chosen.rows);
    let found = read_found(alloc, disk, &area, &chosen.taken.newest.told, &rows)?;
    let dropped = rows.len().saturating_sub(found.len()) as u64;
    Ok(OpeningRead {
        area,
        taken: chosen.taken,
        rows,
        found,
        dropped,
    })
}
