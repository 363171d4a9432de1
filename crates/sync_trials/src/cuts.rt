// The power is cut behind each call of a sync, in each way: what stands is what the calls say.
ghost use Rattle.std.specs.Prelude.{◌≤◌};

use crate::devices::{BodyFound, CopyFound};
use crate::stripes::{Stripe, Way, small_geometry, trial_stripe};
use crate::trials::{NONE, Report, Trial, cut_behind};
use device_log::CutChoice;
use std::alloc::{AllocError, Global};
use std::test::Fail;
use stripe_header::Side;

const CHOICES: [CutChoice; 4] = [
    CutChoice::Lost,
    CutChoice::Kept,
    CutChoice::Torn,
    CutChoice::Junk,
];

// The calls are: the gate, a sync, the parts of the body, a sync, the gate, a sync. So many were
// made, and so many are left.
fn is_open(calls: u64, left: u64, choice: CutChoice) -> bool {
    if calls == 1 {
        return choice == CutChoice::Lost;
    }
    if left == 1 {
        return choice == CutChoice::Kept || choice == CutChoice::Torn;
    }
    calls == 0 || left == 0
}

fn body_behind(calls: u64, left: u64, choice: CutChoice) -> BodyFound {
    if calls <= 2 {
        return BodyFound::Old;
    }
    if left <= 2 || left == 3 && choice == CutChoice::Kept {
        return BodyFound::New;
    }
    if choice == CutChoice::Lost {
        BodyFound::Old
    } else {
        BodyFound::Mixed
    }
}

// What a sync of so many calls leaves.
fn wanted(trial: &Trial, last: u64) -> Report {
    let left = last.saturating_sub(trial.calls);
    Report {
        done: left == 0,
        this: CopyFound {
            open: is_open(trial.calls, left, trial.choice),
            body: body_behind(trial.calls, left, trial.choice),
        },
        other: CopyFound {
            open: true,
            body: BodyFound::Old,
        },
    }
}

// Whether each cut leaves what its calls say.
fn are_as_told(
    alloc: Global,
    stripe: &Stripe,
    way: Way,
    last: u64,
    side: Side,
) -> Result<bool, AllocError> {
    for choice in CHOICES {
        for calls in 0..10u64 {
            let trial = Trial {
                side,
                way,
                calls,
                choice,
            };
            let mut report = NONE;
            cut_behind(alloc, stripe, &trial, &mut report)?;
            if report != wanted(&trial, last) {
                return Ok(false);
            }
        }
    }
    Ok(true)
}

// The same of both copies of a stripe with such a directory.
fn sweep(alloc: Global, directory: u64, way: Way, last: u64) -> Result<bool, AllocError>
    requires some { 1 ≤ directory }
    requires few { directory ≤ 1000 }
{
    let Some(geometry) = small_geometry() else {
        return Ok(false);
    };
    let stripe = trial_stripe(alloc, geometry, directory)?;
    Ok(
        are_as_told(alloc, &stripe, way, last, Side::A)?
            && are_as_told(alloc, &stripe, way, last, Side::B)?,
    )
}

#[test]
fn a_cut_of_a_whole_sync_leaves_what_its_calls_say(rt: HostRuntime) -> Result<(), Fail> {
    assert!(rt; sweep(rt.alloc(), 1, Way::Whole, 6)?);
    assert!(rt; sweep(rt.alloc(), 130, Way::Whole, 6)?);
    Ok(())
}

#[test]
fn a_cut_of_a_sync_in_parts_leaves_what_its_calls_say(rt: HostRuntime) -> Result<(), Fail> {
    assert!(rt; sweep(rt.alloc(), 1, Way::Parts, 6)?);
    assert!(rt; sweep(rt.alloc(), 130, Way::Parts, 8)?);
    Ok(())
}
