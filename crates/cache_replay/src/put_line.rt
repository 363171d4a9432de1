// The line of a whole put.
ghost use Rattle.std.specs.Prelude.{Some, None};
ghost use Rattle.script_grammar.specs.declared.step.Step.TheVariants as step;
ghost use Rattle.cache_replay.specs.OneLine.{AnswersLine, AnswersPlainly};
ghost use Rattle.cache_replay.specs.Session.{IsPart, IsSession, state_in_part};

use crate::answers::closed_answer;
use crate::putting::put;
use crate::session::{Part, Session};
use crate::stop::Stop;
use alternate_vector::Fields;
use cache_calls::Calls;
use script_grammar::StepAnswer;
use tape_base::Key;

/// Puts a whole body, in a line.
pub(crate) fn put_line<S: Calls>(
    session: &mut Session<S>,
    key: Key,
    body: &[u8],
    request: Fields,
    response: Fields,
) -> Result<StepAnswer, Stop>
    requires session { IsSession session.old }
    ensures line { AnswersLine (step.Put key body.now request response)
        session.old session.new result }
{
    match &mut session.part {
        Some(part) => put_in(part, key, body, request, response, session.now),
        None => Err(Stop::NoCache),
    }
}

// Puts it, where there is a cache.
fn put_in<S: Calls>(
    part: &mut Part<S>,
    key: Key,
    body: &[u8],
    request: Fields,
    response: Fields,
    now: u64,
) -> Result<StepAnswer, Stop>
    requires part { IsPart part.old }
    ensures line { AnswersPlainly now (step.Put key body.now request response)
        (Some (state_in_part part.old).next_put) None part.old part.new result }
{
    match closed_answer(put(&mut part.cache, key, body, request, response, now)) {
        Some(said) => Ok(said),
        None => Err(Stop::Memory),
    }
}
