// A sync on a device in memory, with the room that each of its calls needs.
ghost use Rattle.std.specs.Prelude.{◌≡◌, ◌≤◌};
ghost use Rattle.stripe_header.specs.Layout.{device_blocks};
ghost use Rattle.logged_disk.specs.MemDisk.{mem_state};
ghost use Rattle.dir_sync.specs.Runs.{left_of};

use crate::stripes::Way;
use dir_sync::SyncRun;
use logged_disk::{Disk, MemDisk};
use std::alloc::AllocError;
use stripe_header::Area;

// Writes all that is left; whether no call failed.
fn write_whole(disk: &mut MemDisk, area: &Area, run: &mut SyncRun) -> Result<bool, AllocError>
    requires area { run.old.area ≡ area.now }
    requires within { device_blocks area.now ≤ (mem_state disk.old).size }
    ensures size { (mem_state disk.new).size ≡ (mem_state disk.old).size }
    ensures same { run.new.area ≡ run.old.area }
{
    disk.make_room(6, area.body_blocks() + 2)?;
    if run.left() == 0 {
        return Ok(true);
    }
    Ok(run.finish(disk).is_ok())
}

// Writes it in parts; whether no call failed.
fn write_parts(disk: &mut MemDisk, run: &mut SyncRun) -> Result<bool, AllocError>
    requires within { device_blocks run.old.area ≤ (mem_state disk.old).size }
    ensures size { (mem_state disk.new).size ≡ (mem_state disk.old).size }
    ensures same { run.new.area ≡ run.old.area }
{
    while run.left() > 0 {
        disk.make_room(6, 66)?;
        if run.step(disk).is_err() {
            return Ok(false);
        }
    }
    Ok(true)
}

/// Goes on to the end of the sync; whether no call failed.
pub fn go_on(
    disk: &mut MemDisk,
    area: &Area,
    run: &mut SyncRun,
    way: Way,
) -> Result<bool, AllocError>
    requires area { run.old.area ≡ area.now }
    requires within { device_blocks area.now ≤ (mem_state disk.old).size }
    ensures size { (mem_state disk.new).size ≡ (mem_state disk.old).size }
    ensures same { run.new.area ≡ run.old.area }
{
    match way {
        Way::Whole => write_whole(disk, area, run),
        Way::Parts => write_parts(disk, run),
    }
}
