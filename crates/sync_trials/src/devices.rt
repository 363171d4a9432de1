// A device in memory: copies are laid there, and looked at.
ghost use Rattle.std.specs.Prelude.{◌≡◌, ◌≤◌, ◌<◌, ◌*◌, length, IfOk};
ghost use Rattle.stripe_header.specs.Layout.{body_blocks, device_blocks};
ghost use Rattle.logged_disk.specs.MemDisk.{mem_state};

use logged_disk::{Disk, MemDisk};
use std::alloc::{AllocError, Global};
use stripe_header::{Area, Side};

const BLOCK: usize = 512;

/// Which body a copy has.
#[derive(Clone, Copy, PartialEq, Eq)]
pub enum BodyFound {
    Unread,
    Old,
    New,
    /// Neither the old one nor the new one.
    Mixed,
}

/// Whether the gate of a copy is open, and which body stands behind it.
#[derive(Clone, Copy, PartialEq, Eq)]
pub struct CopyFound {
    pub open: bool,
    pub body: BodyFound,
}

/// Puts a copy behind an open gate, and leaves nothing pending; whether no call failed.
pub fn lay_copy(
    disk: &mut MemDisk,
    area: &Area,
    side: Side,
    body: &[u8],
) -> Result<bool, AllocError>
    requires whole { length body.now ≡ 512 * body_blocks area.now }
    requires within { device_blocks area.now ≤ (mem_state disk.old).size }
    ensures size { (mem_state disk.new).size ≡ (mem_state disk.old).size }
{
    disk.make_room(3, area.body_blocks() + 1)?;
    let body_is = disk.write(area.body(side), body).is_ok();
    let gate_is = disk.write(side.gate(), &[1; BLOCK]).is_ok();
    let synced = disk.sync().is_ok();
    Ok(body_is && gate_is && synced)
}

// Whether a gate is open.
fn is_open(disk: &mut MemDisk, side: Side) -> bool
    requires within { 2 < (mem_state disk.old).size }
    ensures size { (mem_state disk.new).size ≡ (mem_state disk.old).size }
{
    let mut gate = [0; BLOCK];
    disk.read(side.gate(), &mut gate).is_ok() && gate[0] == 1
}

fn body_found(found: &[u8], old: &[u8], new: &[u8]) -> BodyFound {
    if found == old {
        BodyFound::Old
    } else if found == new {
        BodyFound::New
    } else {
        BodyFound::Mixed
    }
}

/// Finds what stands of a copy, where nothing was found of it yet.
pub fn find_copy(
    alloc: Global,
    disk: &mut MemDisk,
    area: &Area,
    side: Side,
    old: &[u8],
    new: &[u8],
    copy: &mut CopyFound,
) -> Result<(), AllocError>
    requires within { device_blocks area.now ≤ (mem_state disk.old).size }
    ensures size { (mem_state disk.new).size ≡ (mem_state disk.old).size }
{
    let mut found = vec![in alloc; 0u8; BLOCK * area.body_blocks() as usize]?;
    copy.open = is_open(disk, side);
    if disk.read(area.body(side), &mut found).is_ok() {
        copy.body = body_found(&found, old, new);
    }
    Ok(())
}
