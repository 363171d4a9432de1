// Whole syncs of a stripe that was laid out, one of which may fail at a call. The power is cut behind
// each call of the last one, and the newest copy is read.
ghost use Rattle.std.specs.Prelude.{◌≡◌, ◌≤◌, ◌+◌, IsTrue, IfSome};
ghost use Rattle.tape_base.specs.Place.{directory_blocks_of};
ghost use Rattle.stripe_header.specs.Layout.{device_blocks};
ghost use Rattle.stripe_header.specs.Spelling.{has_cursor, may_say};
ghost use Rattle.dir_table.specs.Window.{first_window};
ghost use Rattle.packed_directory.specs.Packed.{window_of};
ghost use Rattle.logged_disk.specs.MemDisk.{mem_state};

use crate::stripes::small_geometry;
use crate::trials::{fail_at, stop_behind};
use device_log::CutChoice;
use dir_table::Directory;
use logged_disk::{Disk, MemDisk, PowerDisk};
use packed_directory::PackedDirectory;
use std::alloc::{AllocError, Global};
use std::test::Fail;
use stripe_copies::{Copies, lay_out};
use stripe_header::{Area, CopyState, Side, read_copy};
use tape_base::{Geometry, directory_blocks, lap_end, slot};

const BLOCK: usize = 512;

const LIMIT: u64 = 1 << 62;

// Where the newest copy that stands is of this serial, and the last syncs that finished and began.
#[derive(Clone, Copy)]
struct Found {
    serial: u64,
    finished: u64,
    begun: u64,
}

fn has_cursor(g: &Geometry, state: &CopyState) -> bool
    ensures { result ≡ has_cursor g.now state.now }
{
    (g.content..LIMIT).contains(&state.cursor) && slot(g, state.cursor) + g.agg as u64 <= g.content
}

// What the next copy is to say, where it may.
fn next_state(g: &Geometry, begun: u64) -> Option<CopyState>
    ensures says { IfSome result (λ s. IsTrue (may_say g.now s)) }
    ensures serial { IfSome result (λ s. s.serial ≡ begun + 1) }
    ensures cursor { IfSome result (λ s. s.cursor ≡ g.now.content) }
{
    let serial = begun.checked_add(1)?;
    let state = CopyState {
        serial,
        cursor: g.content,
        next_put: 1,
        clean: false,
        floor: 0,
    };
    if serial < LIMIT && has_cursor(g, &state) {
        Some(state)
    } else {
        None
    }
}

// A whole sync; whether it was done.
fn sync_once(
    disk: &mut MemDisk,
    copies: &mut Copies,
    directory: &PackedDirectory,
    g: &Geometry,
) -> Result<bool, AllocError>
    requires geometry { copies.old.area.geometry ≡ g.now }
    requires blocks { copies.old.area.directory ≡ directory_blocks_of g.now }
    requires window { window_of directory.now ≡ first_window g.now }
    requires within { device_blocks copies.old.area ≤ (mem_state disk.old).size }
    ensures area { copies.new.area ≡ copies.old.area }
    ensures size { (mem_state disk.new).size ≡ (mem_state disk.old).size }
{
    let Some(state) = next_state(g, copies.begun()) else {
        return Ok(false);
    };
    if lap_end(g, g.content) < state.cursor {
        return Ok(false);
    }
    disk.make_room(8, directory_blocks(g) + 5)?;
    Ok(copies.whole(disk, directory, state).is_ok())
}

// A sync of which this call fails, where it is not 0; else none.
fn sync_with_fault(
    disk: &mut MemDisk,
    copies: &mut Copies,
    directory: &PackedDirectory,
    g: &Geometry,
    nth: u64,
) -> Result<(), AllocError>
    requires geometry { copies.old.area.geometry ≡ g.now }
    requires blocks { copies.old.area.directory ≡ directory_blocks_of g.now }
    requires window { window_of directory.now ≡ first_window g.now }
    requires within { device_blocks copies.old.area ≤ (mem_state disk.old).size }
    ensures area { copies.new.area ≡ copies.old.area }
    ensures size { (mem_state disk.new).size ≡ (mem_state disk.old).size }
{
    if nth == 0 {
        return Ok(());
    }
    fail_at(disk, nth)?;
    sync_once(disk, copies, directory, g)?;
    Ok(())
}

// A sync that goes, one with a fault, and one that stops behind so many calls; whether the first went.
fn sync_thrice(
    disk: &mut MemDisk,
    copies: &mut Copies,
    directory: &PackedDirectory,
    g: &Geometry,
    nth: u64,
    calls: u64,
) -> Result<bool, AllocError>
    requires geometry { copies.old.area.geometry ≡ g.now }
    requires blocks { copies.old.area.directory ≡ directory_blocks_of g.now }
    requires window { window_of directory.now ≡ first_window g.now }
    requires within { device_blocks copies.old.area ≤ (mem_state disk.old).size }
    ensures size { (mem_state disk.new).size ≡ (mem_state disk.old).size }
{
    let went = sync_once(disk, copies, directory, g)?;
    sync_with_fault(disk, copies, directory, g, nth)?;
    stop_behind(disk, calls)?;
    sync_once(disk, copies, directory, g)?;
    Ok(went)
}

// The serial of a copy; 0 where it is refused.
fn serial_of(alloc: Global, disk: &mut MemDisk, area: &Area, side: Side) -> Result<u64, AllocError>
    requires within { device_blocks area.now ≤ (mem_state disk.old).size }
    ensures size { (mem_state disk.new).size ≡ (mem_state disk.old).size }
{
    let mut gate = [0; BLOCK];
    let mut body = vec![in alloc; 0u8; BLOCK * area.body_blocks() as usize]?;
    let read = disk.read(side.gate(), &mut gate).is_ok()
        && disk.read(area.body(side), &mut body).is_ok();
    if !read {
        return Ok(0);
    }
    Ok(match read_copy(&area.geometry, &gate, &body) {
        Ok(state) => state.serial,
        Err(_) => 0,
    })
}

// Cuts the power; the serial of the newest copy that stands then.
fn newest_serial(
    alloc: Global,
    disk: &mut MemDisk,
    area: &Area,
    choice: CutChoice,
) -> Result<u64, AllocError>
    requires within { device_blocks area.now ≤ (mem_state disk.old).size }
{
    disk.make_room(1, 0)?;
    disk.cut(choice);
    let a = serial_of(alloc, disk, area, Side::A)?;
    let b = serial_of(alloc, disk, area, Side::B)?;
    Ok(a.max(b))
}

// Lays a stripe out, syncs it three times, and cuts the power.
fn find(
    alloc: Global,
    g: &Geometry,
    nth: u64,
    calls: u64,
    choice: CutChoice,
) -> Result<Option<Found>, AllocError> {
    let mut copies = Copies::behind_format(alloc, g)?;
    let directory = PackedDirectory::new(alloc, g)?;
    let area = Area {
        geometry: *g,
        directory: directory_blocks(g),
    };
    let mut disk = MemDisk::new(alloc, 0, area.blocks());
    if lay_out(alloc, &mut disk, g).is_err() {
        return Ok(None);
    }
    if !sync_thrice(&mut disk, &mut copies, &directory, g, nth, calls)? {
        return Ok(None);
    }
    Ok(Some(Found {
        serial: newest_serial(alloc, &mut disk, &area, choice)?,
        finished: copies.finished(),
        begun: copies.begun(),
    }))
}

// How many trials found the last sync that had finished, and a later one that was broken off.
#[derive(Drop)]
struct Met {
    finished: u32,
    later: u32,
}

// The cuts behind each call of a sync: none finds an older sync than the last that finished.
fn try_calls(alloc: Global, nth: u64, met: &mut Met) -> Result<bool, AllocError> {
    let Some(g) = small_geometry() else {
        return Ok(false);
    };
    for choice in [
        CutChoice::Lost,
        CutChoice::Kept,
        CutChoice::Torn,
        CutChoice::Junk,
    ] {
        for calls in 0..8u64 {
            let Some(found) = find(alloc, &g, nth, calls, choice)? else {
                return Ok(false);
            };
            if found.serial < found.finished || found.begun < found.serial {
                return Ok(false);
            }
            if found.serial == found.finished {
                met.finished = met.finished.saturating_add(1);
            } else {
                met.later = met.later.saturating_add(1);
            }
        }
    }
    Ok(true)
}

#[test]
fn the_newest_copy_is_never_older_than_the_last_sync_that_finished(
    rt: HostRuntime,
) -> Result<(), Fail> {
    let mut met = Met {
        finished: 0,
        later: 0,
    };
    // A fault at none of its calls, and at each.
    for nth in 0..=6u64 {
        assert!(rt; try_calls(rt.alloc(), nth, &mut met)?);
    }
    assert!(rt; met.finished > 0 && met.later > 0);
    Ok(())
}
