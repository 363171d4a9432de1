// Lines for the switch of the session's device.
ghost use Rattle.std.specs.Prelude.{◌≡◌, IfOk};
ghost use Rattle.cache_replay.specs.OneLine.{AnswersLine};
ghost use Rattle.cache_replay.specs.Session.{IsPart, IsSession};
ghost use Rattle.cache_replay.specs.Switching.{AnswerTellsSwitch, AnswersOrder, step_of_order, told_answer};

use crate::session::{Part, Session};
use crate::stop::Stop;
use cache_calls::{Calls, Powered, SwitchOrder};
use script_grammar::{Refused, StepAnswer};

/// `fail NTH`, `stop-after CALLS` or `flip PLACE BYTE`
pub(crate) fn switch_line<S: Powered>(
    session: &mut Session<S>,
    order: SwitchOrder,
) -> Result<StepAnswer, Stop>
    requires session { IsSession session.old }
    ensures line { AnswersLine (step_of_order order) session.old session.new result }
    ensures switch { IfOk result (AnswerTellsSwitch order session.new.part) }
{
    match &mut session.part {
        Some(part) => tell(part, order),
        None => Err(Stop::NoCache),
    }
}

// Tells the switch of a cache's device.
fn tell<S: Powered>(part: &mut Part<S>, order: SwitchOrder) -> Result<StepAnswer, Stop>
    requires part { IsPart part.old }
    ensures order { AnswersOrder order part.old part.new result }
{
    match part.cache.tell(order) {
        Ok(true) => Ok(told_answer(order)),
        Ok(false) => Ok(StepAnswer::Refused {
            why: Refused::NoSwitch,
            took: None,
        }),
        Err(_) => Err(Stop::Memory),
    }
}

// What is answered where the switch was told it.
fn told_answer(order: SwitchOrder) -> StepAnswer
    ensures { result ≡ told_answer order }
{
    match order {
        SwitchOrder::Fail { .. } | SwitchOrder::StopAfter { .. } => StepAnswer::Armed,
        SwitchOrder::Flip { .. } => StepAnswer::Flipped,
    }
}
