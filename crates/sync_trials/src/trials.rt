// One sync, with a fault or without one, a stop behind so many calls, and a power cut.
ghost use Rattle.std.specs.Prelude.{◌≡◌, ◌≤◌, ◌<◌, ◌*◌, length, IfOk};
ghost use Rattle.stripe_header.specs.Layout.{body_blocks, device_blocks};
ghost use Rattle.logged_disk.specs.MemDisk.{mem_state};

use crate::devices::{BodyFound, CopyFound, find_copy, lay_copy};
use crate::stripes::{Stripe, Way, bare_body, state_of};
use crate::syncing::go_on;
use device_log::CutChoice;
use dir_sync::SyncRun;
use logged_disk::{Disk, MemDisk, PowerDisk};
use std::alloc::{AllocError, Global};
use stripe_header::Side;

/// Which copy is replaced, in which way, behind how many calls all fail, and how the power is cut.
#[derive(Clone, Copy)]
pub struct Trial {
    pub side: Side,
    pub way: Way,
    pub calls: u64,
    pub choice: CutChoice,
}

/// Whether the sync came to its end, and what stands of its copy and of the other one.
#[derive(Clone, Copy, PartialEq, Eq)]
pub struct Report {
    pub done: bool,
    pub this: CopyFound,
    pub other: CopyFound,
}

const UNREAD: CopyFound = CopyFound {
    open: false,
    body: BodyFound::Unread,
};

/// That of no trial yet.
pub const NONE: Report = Report {
    done: false,
    this: UNREAD,
    other: UNREAD,
};

// Puts the two copies of the stripe on a device.
fn lay_copies(disk: &mut MemDisk, stripe: &Stripe, side: Side) -> Result<(), AllocError>
    requires within { device_blocks stripe.now.area ≤ (mem_state disk.old).size }
    ensures size { (mem_state disk.new).size ≡ (mem_state disk.old).size }
{
    lay_copy(disk, &stripe.area, side, &stripe.old)?;
    lay_copy(disk, &stripe.area, side.other(), &stripe.other)?;
    Ok(())
}

// All calls behind so many fail.
pub fn stop_behind(disk: &mut MemDisk, calls: u64) -> Result<(), AllocError>
    ensures size { (mem_state disk.new).size ≡ (mem_state disk.old).size }
{
    disk.make_room(1, 0)?;
    disk.stop_after(calls);
    Ok(())
}

// The nth call from now on fails.
pub fn fail_at(disk: &mut MemDisk, nth: u64) -> Result<(), AllocError>
    requires { 0 < nth }
    ensures size { (mem_state disk.new).size ≡ (mem_state disk.old).size }
{
    disk.make_room(1, 0)?;
    disk.fail(nth);
    Ok(())
}

// The power is cut, and both copies are looked at.
fn look(
    alloc: Global,
    disk: &mut MemDisk,
    stripe: &Stripe,
    trial: &Trial,
    report: &mut Report,
) -> Result<(), AllocError>
    requires within { device_blocks stripe.now.area ≤ (mem_state disk.old).size }
{
    disk.make_room(1, 0)?;
    disk.cut(trial.choice);
    let area = &stripe.area;
    let side = trial.side;
    find_copy(
        alloc,
        disk,
        area,
        side,
        &stripe.old,
        &stripe.new,
        &mut report.this,
    )?;
    find_copy(
        alloc,
        disk,
        area,
        side.other(),
        &stripe.other,
        &stripe.new,
        &mut report.other,
    )
}

// Begins a sync and goes on with it; whether it came to its end.
fn sync_once(
    disk: &mut MemDisk,
    stripe: &Stripe,
    trial: &Trial,
    body: Vec<u8>,
) -> Result<bool, AllocError>
    requires whole { length body.items ≡ 512 * body_blocks stripe.now.area }
    requires within { device_blocks stripe.now.area ≤ (mem_state disk.old).size }
    ensures size { (mem_state disk.new).size ≡ (mem_state disk.old).size }
{
    disk.make_room(2, 1)?;
    match SyncRun::begin(disk, &stripe.area, trial.side, false, state_of(5), body) {
        Err(_) => Ok(false),
        Ok(run) => {
            let mut run = run;
            go_on(disk, &stripe.area, &mut run, trial.way)
        }
    }
}

/// A sync that stops behind so many calls, and a power cut.
pub fn cut_behind(
    alloc: Global,
    stripe: &Stripe,
    trial: &Trial,
    report: &mut Report,
) -> Result<(), AllocError> {
    let mut disk = MemDisk::new(alloc, 0, stripe.area.blocks());
    lay_copies(&mut disk, stripe, trial.side)?;
    let body = bare_body(alloc, &stripe.area, 5)?;
    stop_behind(&mut disk, trial.calls)?;
    report.done = sync_once(&mut disk, stripe, trial, body)?;
    look(alloc, &mut disk, stripe, trial, report)
}

// Goes on with a sync that was begun, and once more where a call fails, but then stops behind so
// many calls; whether it came to its end.
fn go_on_twice(
    disk: &mut MemDisk,
    stripe: &Stripe,
    trial: &Trial,
    run: SyncRun,
) -> Result<bool, AllocError>
    requires area { run.area ≡ stripe.now.area }
    requires within { device_blocks stripe.now.area ≤ (mem_state disk.old).size }
    ensures size { (mem_state disk.new).size ≡ (mem_state disk.old).size }
{
    let mut run = run;
    if go_on(disk, &stripe.area, &mut run, trial.way)? {
        return Ok(true);
    }
    stop_behind(disk, trial.calls)?;
    go_on(disk, &stripe.area, &mut run, trial.way)
}

// The same from the beginning on.
fn sync_twice(
    disk: &mut MemDisk,
    stripe: &Stripe,
    trial: &Trial,
    body: Vec<u8>,
) -> Result<bool, AllocError>
    requires whole { length body.items ≡ 512 * body_blocks stripe.now.area }
    requires within { device_blocks stripe.now.area ≤ (mem_state disk.old).size }
    ensures size { (mem_state disk.new).size ≡ (mem_state disk.old).size }
{
    disk.make_room(2, 1)?;
    match SyncRun::begin(disk, &stripe.area, trial.side, false, state_of(5), body) {
        Ok(run) => go_on_twice(disk, stripe, trial, run),
        Err((_, back)) => {
            stop_behind(disk, trial.calls)?;
            sync_once(disk, stripe, trial, back)
        }
    }
}

/// A sync of which the nth call fails, that is begun again and stops behind so many calls more, and
/// a power cut.
pub fn cut_behind_restart(
    alloc: Global,
    stripe: &Stripe,
    trial: &Trial,
    nth: u64,
    report: &mut Report,
) -> Result<(), AllocError>
    requires { 0 < nth }
{
    let mut disk = MemDisk::new(alloc, 0, stripe.area.blocks());
    lay_copies(&mut disk, stripe, trial.side)?;
    let body = bare_body(alloc, &stripe.area, 5)?;
    fail_at(&mut disk, nth)?;
    report.done = sync_twice(&mut disk, stripe, trial, body)?;
    look(alloc, &mut disk, stripe, trial, report)
}
