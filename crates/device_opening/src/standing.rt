// What stands on a device by the elements of a copy.
ghost use Rattle.std.specs.Prelude.{◌≡◌, ◌≤◌, ◌-◌, ◌*◌, IsTrue, length, IfErr, IfOk, OnOk};
ghost use Rattle.stripe_header.specs.Layout.{content_of, device_blocks};
ghost use Rattle.stripe_header.specs.Spelling.{may_say};
ghost use Rattle.reopening.specs.Newest.{bound_of};
ghost use Rattle.reopening.specs.Tests.{standing_from};
ghost use Rattle.device_reads.specs.Reads.{Fails, Reads};
ghost use Rattle.device_opening.specs.Tape.{Ascend};

use crate::search::{read_stretch, split_at_place};
use crate::stretch::stretches_of;
use cache_model::FoundRow;
use device_reads::ReadFault;
use dir_table::StoredRow;
use logged_disk::Disk;
use std::alloc::Global;
use stripe_header::{Area, CopyState};

/// What stands at the places of these elements, in rising place. The cursor's lap is read first, since it lies before the
/// other on the device.
pub(crate) fn read_standing<D: Disk>(
    alloc: Global,
    disk: &mut D,
    area: &Area,
    told: &CopyState,
    rows: &[StoredRow],
) -> Result<Vec<FoundRow>, ReadFault>
    requires room { device_blocks area.now ≤ (D.state disk.old).size }
    requires says { IsTrue (may_say area.now.geometry told.now) }
    requires ascend { Ascend 0 rows.now }
    ensures standing { IfOk result (λ all. let low = bound_of area.now.geometry told.now in
        Reads (content_of area.now) (device_blocks area.now) (2 * length rows.now) (D.state disk.old) (D.state disk.new)
        (λ c. all.items ≡ standing_from area.now told.now rows.now c low (told.now.cursor - low))) }
    ensures unrefused { OnOk result ((D.state disk.new).faults ≡ (D.state disk.old).faults) }
    ensures fails { IfErr result (Fails (content_of area.now) (device_blocks area.now) (2 * length rows.now) (D.state disk.old) (D.state disk.new)) }
{
    let stretches = stretches_of(area, told);
    let (below, above) = split_at_place(rows, stretches.here.low);
    let mut here = read_stretch(alloc, disk, &stretches.here, above)?;
    let mut all = read_stretch(alloc, disk, &stretches.before, below)?;
    all.append(&mut here)?;
    Ok(all)
}
