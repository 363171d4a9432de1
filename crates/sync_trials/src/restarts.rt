// Each call of a sync fails once. It is begun again, and the power is cut behind each later call.
ghost use Rattle.std.specs.Prelude.{◌<◌, ◌≤◌};

use crate::devices::{BodyFound, CopyFound};
use crate::stripes::{Stripe, Way, small_geometry, trial_stripe};
use crate::trials::{NONE, Report, Trial, cut_behind_restart};
use device_log::CutChoice;
use std::alloc::{AllocError, Global};
use std::test::Fail;
use stripe_header::Side;

const UNTOUCHED: CopyFound = CopyFound {
    open: true,
    body: BodyFound::Old,
};

const REPLACED: CopyFound = CopyFound {
    open: true,
    body: BodyFound::New,
};

// How many cuts left the copy as before, shut, and replaced, and whether all were safe.
#[derive(Drop)]
struct Met {
    before: u32,
    shut: u32,
    replaced: u32,
    all_safe: bool,
}

impl Met {
    fn add(&mut self, this: CopyFound) {
        if !this.open {
            self.shut = self.shut.saturating_add(1);
        } else if this == REPLACED {
            self.replaced = self.replaced.saturating_add(1);
        } else {
            self.before = self.before.saturating_add(1);
        }
    }
}

// Whether the other copy is untouched, and this one shut or whole, and the new one where it was
// done.
fn is_safe(report: &Report) -> bool {
    let this = report.this;
    report.other == UNTOUCHED
        && this.body != BodyFound::Unread
        && (!this.open || this.body != BodyFound::Mixed)
        && (!report.done || this == REPLACED)
}

fn try_one(
    alloc: Global,
    stripe: &Stripe,
    trial: &Trial,
    nth: u64,
    met: &mut Met,
) -> Result<(), AllocError>
    requires { 0 < nth }
{
    let mut report = NONE;
    cut_behind_restart(alloc, stripe, trial, nth, &mut report)?;
    met.all_safe &= is_safe(&report);
    met.add(report.this);
    Ok(())
}

// The trials of one fault.
fn try_fault(
    alloc: Global,
    stripe: &Stripe,
    side: Side,
    way: Way,
    nth: u64,
    met: &mut Met,
) -> Result<(), AllocError>
    requires { 0 < nth }
{
    for choice in [
        CutChoice::Lost,
        CutChoice::Kept,
        CutChoice::Torn,
        CutChoice::Junk,
    ] {
        for calls in 0..9u64 {
            let trial = Trial {
                side,
                way,
                calls,
                choice,
            };
            try_one(alloc, stripe, &trial, nth, met)?;
        }
    }
    Ok(())
}

// Those of each fault of a sync of so many calls: whether all were safe, and each of the three ways
// was met.
fn is_met(
    alloc: Global,
    directory: u64,
    way: Way,
    last: u64,
    side: Side,
) -> Result<bool, AllocError>
    requires some { 1 ≤ directory }
    requires few { directory ≤ 1000 }
{
    let Some(geometry) = small_geometry() else {
        return Ok(false);
    };
    let stripe = trial_stripe(alloc, geometry, directory)?;
    let mut met = Met {
        before: 0,
        shut: 0,
        replaced: 0,
        all_safe: true,
    };
    for nth in 1..=last {
        try_fault(alloc, &stripe, side, way, nth, &mut met)?;
    }
    Ok(met.all_safe && met.before > 0 && met.shut > 0 && met.replaced > 0)
}

#[test]
fn a_whole_sync_begins_again_behind_each_fault(rt: HostRuntime) -> Result<(), Fail> {
    assert!(rt; is_met(rt.alloc(), 1, Way::Whole, 6, Side::A)?);
    assert!(rt; is_met(rt.alloc(), 1, Way::Whole, 6, Side::B)?);
    Ok(())
}

#[test]
fn a_sync_of_copy_a_in_parts_begins_again_behind_each_fault(rt: HostRuntime) -> Result<(), Fail> {
    assert!(rt; is_met(rt.alloc(), 66, Way::Parts, 7, Side::A)?);
    Ok(())
}

#[test]
fn a_sync_of_copy_b_in_parts_begins_again_behind_each_fault(rt: HostRuntime) -> Result<(), Fail> {
    assert!(rt; is_met(rt.alloc(), 66, Way::Parts, 7, Side::B)?);
    Ok(())
}
