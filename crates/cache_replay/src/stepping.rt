// The steps of a script, whatever they are.
ghost use Rattle.std.specs.Prelude.{◌≡◌, ◌-◌, ◌^◌, ◌<◌, ◌≤◌, ◌↔◌, is_some, true, false, length};
ghost use Rattle.device_bay.specs.Calls.{out_of};
ghost use Rattle.script_grammar.specs.declared.answer.StepAnswer.TheVariants as answer;
ghost use Rattle.script_grammar.specs.declared.step.Step.TheVariants as step;
ghost use Rattle.script_run.specs.Run.{Run};
ghost use Rattle.script_run.specs.Switch.{is_of_switch};
ghost use Rattle.cache_replay.specs.Deals.{AnswersStep};
ghost use Rattle.cache_replay.specs.OneLine.{AnswersLine};
ghost use Rattle.cache_replay.specs.Plays.{Plays, StepMoves};
ghost use Rattle.cache_replay.specs.Replay.{IsReplay, actors_in, devices_in};
ghost use Rattle.cache_replay.specs.Session.{IsSession, names_in};
ghost use Rattle.run_promise.specs.Needs.{NeedsSession};

use crate::bare_lines::{BareOrder, bare_line, is_switchless, lay_bare};
use crate::beginning::format_line;
use crate::getting::get_line;
use crate::plain_lines::{flush_line, remove_line};
use crate::put_line::put_line;
use crate::reader_lines::{done_line, next_line, open_read_line};
use crate::session::{Replay, Session};
use crate::stop::Stop;
use crate::switch_lines::switch_line;
use crate::writer_lines::{abort_line, close_line, data_line, open_write_line};
use cache_calls::{Calls, Formats, Powered, SwitchOrder};
use device_bay::Bay;
use device_log::CutChoice;
use logged_disk::Disk;
use script_grammar::{Refused, Step, StepAnswer};

/// Does a step, and says what came of it.
pub fn step<B: Bay, S: Formats<B::Dev> + Powered>(
    replay: &mut Replay<B::Dev, S>,
    bay: &mut B,
    step: Step,
) -> Result<StepAnswer, Stop>
    requires replay { IsReplay replay.old }
    requires held { devices_in replay.old ≤ out_of (B.past bay.old) }
    requires few { length (actors_in replay.old) < 2 ^ 32 - 1 }
    ensures answers { AnswersStep step replay.old replay.new (B.past bay.old) (B.past bay.new)
        result }
{
    match step {
        Step::Format {
            name,
            segments,
            buckets,
            content,
            agg,
            reach,
            fragment,
            generation,
            alternates,
        } => format_line(
            replay,
            bay,
            name.bytes(),
            segments,
            buckets,
            content,
            agg,
            reach,
            fragment,
            generation,
            alternates,
        ),
        Step::Now { moment } => Ok(now_line(&mut replay.session, moment)),
        Step::Fail { nth } => match &replay.bare {
            Some(_) => bare_line(replay, BareOrder::Fail { nth }),
            None => switch_line(&mut replay.session, SwitchOrder::Fail { nth }),
        },
        Step::StopAfter { calls } => match &replay.bare {
            Some(_) => bare_line(replay, BareOrder::StopAfter { calls }),
            None => switch_line(&mut replay.session, SwitchOrder::StopAfter { calls }),
        },
        Step::Flip { place, byte } => {
            switch_line(&mut replay.session, SwitchOrder::Flip { place, byte })
        }
        Step::Cut { choice } => cut_line(replay, bay, choice),
        other => in_session(&mut replay.session, other),
    }
}

// `cut CHOICE`: the session is over where its device has a switch, and a bare device stays.
fn cut_line<B: Bay, S: Formats<B::Dev>>(
    replay: &mut Replay<B::Dev, S>,
    bay: &mut B,
    choice: CutChoice,
) -> Result<StepAnswer, Stop>
    requires replay { IsReplay replay.old }
    ensures answers { AnswersStep (step.Cut choice) replay.old replay.new (B.past bay.old)
        (B.past bay.new) result }
{
    if is_switchless(replay) {
        return Ok(StepAnswer::Refused {
            why: Refused::NoSwitch,
            took: None,
        });
    }
    lay_bare(replay, bay);
    bare_line(replay, BareOrder::Cut { choice })
}

// `now MOMENT`: the moment is another, and all else stays.
fn now_line<S: Calls>(session: &mut Session<S>, moment: u64) -> StepAnswer
    requires session { IsSession session.old }
    ensures session { IsSession session.new }
    ensures moves { (run : Run) → Plays run session.old
        → StepMoves run (step.Now moment) session.new result }
    ensures answer { result ≡ answer.Now moment }
    ensures part { session.new.part ≡ session.old.part }
    ensures names { names_in session.new ≡ names_in session.old }
{
    session.now = moment;
    StepAnswer::Now { moment }
}

/// Whether there is a cache: a format began one, and no cut ended its session.
pub fn has_cache<D: Disk, S: Calls>(replay: &Replay<D, S>) -> bool
    ensures { result ≡ is_some replay.now.session.part }
{
    replay.session.part.is_some()
}

/// Whether an actor more may have its first step.
pub fn takes_actors<S: Calls>(session: &Session<S>) -> bool
    ensures { (result ≡ true) ↔ (length (names_in session.entry.now) < 2 ^ 32 - 1) }
{
    session.actors.len() < u32::MAX as usize
}

/// Does a step that works on a session, with no bay at hand, and is not for the switch of its device.
pub fn in_session<S: Calls>(session: &mut Session<S>, step: Step) -> Result<StepAnswer, Stop>
    requires session { IsSession session.old }
    requires few { length (names_in session.old) < 2 ^ 32 - 1 }
    requires needs { NeedsSession step }
    requires switch { is_of_switch step ≡ false }
    ensures line { AnswersLine step session.old session.new result }
{
    match step {
        Step::Put {
            object,
            body,
            request,
            response,
        } => put_line(session, object, body.bytes(), request, response),
        Step::Get { object, request } => get_line(session, object, request),
        Step::OpenWrite {
            actor,
            object,
            pin,
            request,
            response,
        } => open_write_line(session, actor.bytes(), object, pin, request, response),
        Step::Feed { actor, body } => data_line(session, actor.bytes(), body.bytes()),
        Step::Close { actor } => close_line(session, actor.bytes()),
        Step::Abort { actor } => abort_line(session, actor.bytes()),
        Step::OpenRead {
            actor,
            object,
            request,
        } => open_read_line(session, actor.bytes(), object, request),
        Step::Next { actor } => next_line(session, actor.bytes()),
        Step::Done { actor } => done_line(session, actor.bytes()),
        Step::Remove { object } => remove_line(session, object),
        Step::Flush => flush_line(session),
        Step::Format { .. } => Err(Stop::NoCache),
        Step::Now { .. } => Err(Stop::NoCache),
        Step::Fail { .. } => Err(Stop::NoCache),
        Step::StopAfter { .. } => Err(Stop::NoCache),
        Step::Flip { .. } => Err(Stop::NoCache),
        Step::Cut { .. } => Err(Stop::NoCache),
    }
}
