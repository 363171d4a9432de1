// Lines without an actor that are one call of a cache: removals and flushes.
ghost use Rattle.std.specs.Prelude.{◌≡◌, None};
ghost use Rattle.script_grammar.specs.declared.step.Step.TheVariants as step;
ghost use Rattle.cache_replay.specs.OneLine.{AnswersLine, AnswersPlainly};
ghost use Rattle.cache_replay.specs.Session.{IsPart, IsSession};
ghost use Rattle.cache_replay.specs.Replies.{flush_refused};

use crate::session::{Part, Session};
use crate::stop::Stop;
use cache_calls::{Calls, Refusal, Removal};
use script_grammar::{Refused, StepAnswer};
use tape_base::Key;

/// `remove OBJECT`
pub(crate) fn remove_line<S: Calls>(session: &mut Session<S>, key: Key) -> Result<StepAnswer, Stop>
    requires session { IsSession session.old }
    ensures line { AnswersLine (step.Remove key) session.old session.new result }
{
    match &mut session.part {
        Some(part) => remove_from(part, key, session.now),
        None => Err(Stop::NoCache),
    }
}

// Removes an object from a cache.
fn remove_from<S: Calls>(part: &mut Part<S>, key: Key, now: u64) -> Result<StepAnswer, Stop>
    requires part { IsPart part.old }
    ensures line { AnswersPlainly now (step.Remove key) None None part.old part.new result }
{
    match part.cache.remove(key) {
        Ok(Removal::Removed { put }) => Ok(StepAnswer::Removed { put }),
        Ok(Removal::Absent(why)) => Ok(StepAnswer::Absent(why)),
        Err(_) => Err(Stop::Memory),
    }
}

/// `flush`
pub(crate) fn flush_line<S: Calls>(session: &mut Session<S>) -> Result<StepAnswer, Stop>
    requires session { IsSession session.old }
    ensures line { AnswersLine step.Flush session.old session.new result }
{
    match &mut session.part {
        Some(part) => flush(part, session.now),
        None => Err(Stop::NoCache),
    }
}

// Writes the buffer of a cache out.
fn flush<S: Calls>(part: &mut Part<S>, now: u64) -> Result<StepAnswer, Stop>
    requires part { IsPart part.old }
    ensures line { AnswersPlainly now step.Flush None None part.old part.new result }
{
    match part.cache.flush(now) {
        Ok(flushed) => Ok(StepAnswer::Flushed {
            blocks: flushed.blocks,
            cursor: flushed.cursor,
            floor: flushed.floor,
            synced: None,
        }),
        Err(why) => flush_refused(why),
    }
}

// Why a flush was refused.
fn flush_refused(why: Refusal) -> Result<StepAnswer, Stop>
    ensures { result ≡ flush_refused why }
{
    match why {
        Refusal::DeviceFault { count } => Ok(StepAnswer::DeviceFault { count, took: None }),
        Refusal::Exhausted { .. } => Ok(StepAnswer::Refused {
            why: Refused::Exhausted,
            took: None,
        }),
        _ => Err(Stop::Memory),
    }
}
