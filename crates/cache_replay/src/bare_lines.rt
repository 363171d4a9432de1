// Lines for a bare device, and the cut that leaves one.
ghost use Rattle.std.specs.Prelude.{◌≡◌};
ghost use Rattle.cache_replay.specs.Bare.{AnswersBare, IsLaidBare, TellsBare, answer_of_order, is_switchless, told_of_order};
ghost use Rattle.cache_replay.specs.Replay.{IsReplay};

use crate::beginning::give_back_bare;
use crate::session::{Bare, Part, Replay};
use crate::stop::Stop;
use cache_calls::{Calls, Formats};
use device_bay::Bay;
use device_log::CutChoice;
use logged_disk::{Disk, PowerDisk};
use script_grammar::{Refused, StepAnswer};
use std::alloc::AllocError;
use std::mem;

/// What a device is told that needs no session.
#[derive(Clone, Copy, Debug)]
pub enum BareOrder {
    Fail { nth: u64 },
    StopAfter { calls: u64 },
    Cut { choice: CutChoice },
}

/// `fail NTH`, `stop-after CALLS` or `cut CHOICE`, with no session on the device
pub(crate) fn bare_line<D: PowerDisk, S: Calls>(
    replay: &mut Replay<D, S>,
    order: BareOrder,
) -> Result<StepAnswer, Stop>
    ensures session { replay.new.session ≡ replay.old.session }
    ensures bare { AnswersBare order replay.old.bare replay.new.bare result }
{
    match &mut replay.bare {
        Some(bare) => answer(order, tell(&mut bare.device, order)),
        None => Err(Stop::NoCache),
    }
}

// What is answered, by whether the device has a switch.
fn answer(order: BareOrder, told: Result<bool, AllocError>) -> Result<StepAnswer, Stop>
    ensures { result ≡ answer_of_order order told }
{
    match told {
        Ok(true) => Ok(told_answer(order)),
        Ok(false) => Ok(StepAnswer::Refused {
            why: Refused::NoSwitch,
            took: None,
        }),
        Err(_) => Err(Stop::Memory),
    }
}

// What is answered where the device was told it.
fn told_answer(order: BareOrder) -> StepAnswer
    ensures { result ≡ told_of_order order }
{
    match order {
        BareOrder::Fail { .. } | BareOrder::StopAfter { .. } => StepAnswer::Armed,
        BareOrder::Cut { .. } => StepAnswer::Cut,
    }
}

// Tells a device, where it has a switch, and says whether it has one.
fn tell<D: PowerDisk>(device: &mut D, order: BareOrder) -> Result<bool, AllocError>
    ensures { TellsBare order (D.state device.old) (D.state device.new) result }
{
    if !device.has_switch() {
        return Ok(false);
    }
    device.make_room(1, 0)?;
    match order {
        BareOrder::Fail { nth } => device.fail(nth.max(1)),
        BareOrder::StopAfter { calls } => device.stop_after(calls),
        BareOrder::Cut { choice } => device.cut(choice),
    }
    Ok(true)
}

/// Ends the session. Its device is bare then, and stays at hand.
pub(crate) fn lay_bare<B: Bay, S: Formats<B::Dev>>(replay: &mut Replay<B::Dev, S>, bay: &mut B)
    requires replay { IsReplay replay.old }
    ensures laid { IsLaidBare replay.old replay.new }
    ensures bay { B.past bay.new ≡ B.past bay.old }
{
    match mem::replace(&mut replay.session.part, None) {
        Some(part) => {
            replay.session.actors.clear();
            let Part { cache, .. } = part;
            let bare = Bare {
                device: cache.into_device(),
            };
            let before = mem::replace(&mut replay.bare, Some(bare));
            give_back_bare(bay, before);
        }
        None => {}
    }
}

/// Whether there is a session whose device has no switch.
pub(crate) fn is_switchless<D: PowerDisk, S: Formats<D>>(replay: &Replay<D, S>) -> bool
    ensures { result ≡ is_switchless replay.now }
{
    match &replay.session.part {
        Some(part) => !part.cache.device().has_switch(),
        None => false,
    }
}
