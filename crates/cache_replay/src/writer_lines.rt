// Lines on the writers of actors: they open, take bytes, close and are given up.
ghost use Rattle.std.specs.Prelude.{ℕ, ◌≡◌, ◌==◌, ◌-◌, ◌^◌, ◌<◌, ◌≤◌, Some, None, length, if◌then◌else◌, option_map, IfOk, IfErr};
ghost use Rattle.cache_model.specs.Legal.{is_writing};
ghost use Rattle.cache_model.specs.Contents.{AnyContents};
ghost use Rattle.cache_calls.specs.Keeping.{plain_setting, state_at};
ghost use Rattle.cache_calls.specs.Standing.{IsToldClosed, StaysStanding};
ghost use Rattle.script_grammar.specs.declared.step.Step.TheVariants as step;
ghost use Rattle.script_run.specs.Answers.{busy, idle};
ghost use Rattle.cache_replay.specs.OneLine.{AnswersActor, AnswersLine};
ghost use Rattle.cache_replay.specs.Replies.{fed_answer};
ghost use Rattle.cache_replay.specs.Session.{IsActive, IsOpenWriter, IsSession, names_in, slots_of};
ghost use Rattle.cache_replay.specs.declared.stop.Stop.TheVariants as stop;
ghost use Rattle.line_calls.specs.Standing.{IsToldFrom};
ghost use Rattle.cache_replay.specs.WriterLines.{ClosesLine, FeedsLine, GivesUpLine, LeavesWriter, OpenDoes, OpensLine, TakesWriter, WriterDoes, held_in};

use crate::answers::{answer_unless_memory, closed_answer};
use crate::feeding::{Fed, feed};
use crate::session::{ActorHolding, Part, Session};
use crate::stop::Stop;
use actor_table::Actors;
use alternate_vector::Fields;
use cache_calls::{Calls, Refusal};
use script_grammar::{Refused, StepAnswer};
use tape_base::{Actor, Key};

// What came of a line on a writer: its answer, where memory is not wanting, and the writer, where that
// is still open.
#[derive(Drop)]
struct Outcome<W: Drop> {
    answer: Option<StepAnswer>,
    left: Option<W>,
}

// ---- all lines on a writer

// Takes the writer that an actor has.
fn take_writer<S: Calls>(
    actors: &mut Actors<ActorHolding<S::Writer, S::Reader>>,
    number: u32,
) -> Option<S::Writer>
    requires known { 0 < number }
    requires within { number ≤ length actors.old.names }
    ensures names { actors.new.names ≡ actors.old.names }
    ensures takes { TakesWriter S.Calls actors.old actors.new number result }
{
    match actors.take(number) {
        Some(ActorHolding::Writer(writer)) => Some(writer),
        Some(reader) => {
            actors.set(number, reader);
            None
        }
        None => None,
    }
}

// Gives an actor back the writer that is left, and tells the answer.
fn set_back<S: Calls>(
    actors: &mut Actors<ActorHolding<S::Writer, S::Reader>>,
    number: u32,
    outcome: Outcome<S::Writer>,
) -> Result<StepAnswer, Stop>
    requires known { 0 < number }
    requires within { number ≤ length actors.old.names }
    requires none { slots_of S.Calls actors.old number ≡ None }
    ensures names { actors.new.names ≡ actors.old.names }
    ensures slots { (n : ℕ) → slots_of S.Calls actors.new n ≡ (if n == number then held_in (option_map S.written outcome.left) else slots_of S.Calls actors.old n) }
    ensures said { IfOk result (λ said. outcome.answer ≡ Some said) }
    ensures stop { IfErr result (λ why. why ≡ stop.Memory) }
{
    let Outcome { answer, left } = outcome;
    put_left::<S>(actors, number, left);
    match answer {
        Some(said) => Ok(said),
        None => Err(Stop::Memory),
    }
}

fn put_left<S: Calls>(
    actors: &mut Actors<ActorHolding<S::Writer, S::Reader>>,
    number: u32,
    left: Option<S::Writer>,
)
    requires known { 0 < number }
    requires within { number ≤ length actors.old.names }
    requires none { slots_of S.Calls actors.old number ≡ None }
    ensures names { actors.new.names ≡ actors.old.names }
    ensures slots { (n : ℕ) → slots_of S.Calls actors.new n ≡ (if n == number then held_in (option_map S.written left) else slots_of S.Calls actors.old n) }
{
    match left {
        Some(writer) => actors.set(number, ActorHolding::Writer(writer)),
        None => {}
    }
}

fn idle() -> StepAnswer
    ensures { result ≡ idle }
{
    StepAnswer::Refused {
        why: Refused::Idle,
        took: None,
    }
}

fn busy() -> StepAnswer
    ensures { result ≡ busy }
{
    StepAnswer::Refused {
        why: Refused::Busy,
        took: None,
    }
}

// The writer, where its put is open.
fn keep_open<S: Calls>(cache: &S, writer: S::Writer) -> Option<S::Writer>
    requires { S.holds cache.now }
    ensures { result ≡ (if is_writing (state_at (S.at cache.now)) (S.written writer).put then Some writer else None) }
{
    if cache.is_open(&writer) {
        Some(writer)
    } else {
        None
    }
}

// ---- open-write

/// Opens a writer for an actor that has nothing.
pub(crate) fn open_write_line<S: Calls>(
    session: &mut Session<S>,
    actor: &[u8],
    key: Key,
    pin: u64,
    request: Fields,
    response: Fields,
) -> Result<StepAnswer, Stop>
    requires session { IsSession session.old }
    requires few { length (names_in session.old) < 2 ^ 32 - 1 }
    ensures line { AnswersLine (step.OpenWrite actor.now key pin request response)
        session.old session.new result }
{
    match &mut session.part {
        Some(part) => open_write_in(
            part,
            &mut session.actors,
            actor,
            key,
            pin,
            request,
            response,
            session.now,
        ),
        None => Err(Stop::NoCache),
    }
}

fn open_write_in<S: Calls>(
    part: &mut Part<S>,
    actors: &mut Actors<ActorHolding<S::Writer, S::Reader>>,
    actor: &[u8],
    key: Key,
    pin: u64,
    request: Fields,
    response: Fields,
    now: u64,
) -> Result<StepAnswer, Stop>
    requires active { IsActive part.old (slots_of S.Calls actors.old) }
    requires few { length actors.old.names < 2 ^ 32 - 1 }
    ensures line { AnswersActor now (step.OpenWrite actor.now key pin request response)
        part.old part.new actors.old actors.new result }
{
    let number = match actors.number(actor) {
        Ok(number) => number,
        Err(_) => return Err(Stop::Memory),
    };
    match actors.get(number) {
        Some(_) => Ok(busy()),
        None => {
            let outcome = begin(&mut part.cache, Actor(number), key, pin, request, response);
            set_back::<S>(actors, number, outcome)
        }
    }
}

// Opens a writer of the next put.
fn begin<S: Calls>(
    cache: &mut S,
    actor: Actor,
    key: Key,
    pin: u64,
    request: Fields,
    response: Fields,
) -> Outcome<S::Writer>
    requires holds { S.holds cache.old }
    requires plain { (S.at cache.old).setting ≡ plain_setting }
    ensures leaves { let put = (state_at (S.at cache.old)).next_put in
        LeavesWriter S.Calls cache.old cache.new put result.left result.answer }
    ensures stands { StaysStanding S.stands AnyContents cache.old cache.new }
    ensures does { OpenDoes (S.at cache.old) (S.at cache.new) actor.0
        (OpensLine key pin request response) (option_map S.written result.left) result.answer }
{
    match cache.open_write(actor, key, request, response, pin) {
        Ok(writer) => {
            let put = cache.put_of(&writer);
            Outcome {
                answer: Some(StepAnswer::Writer { put }),
                left: Some(writer),
            }
        }
        Err(why) => Outcome {
            answer: answer_unless_memory(why, None),
            left: None,
        },
    }
}

// ---- data

/// Gives bytes to the writer of an actor.
pub(crate) fn data_line<S: Calls>(
    session: &mut Session<S>,
    actor: &[u8],
    body: &[u8],
) -> Result<StepAnswer, Stop>
    requires session { IsSession session.old }
    requires few { length (names_in session.old) < 2 ^ 32 - 1 }
    ensures line { AnswersLine (step.Feed actor.now body.now) session.old session.new result }
{
    match &mut session.part {
        Some(part) => data_in(part, &mut session.actors, actor, body, session.now),
        None => Err(Stop::NoCache),
    }
}

fn data_in<S: Calls>(
    part: &mut Part<S>,
    actors: &mut Actors<ActorHolding<S::Writer, S::Reader>>,
    actor: &[u8],
    body: &[u8],
    now: u64,
) -> Result<StepAnswer, Stop>
    requires active { IsActive part.old (slots_of S.Calls actors.old) }
    requires few { length actors.old.names < 2 ^ 32 - 1 }
    ensures line { AnswersActor now (step.Feed actor.now body.now)
        part.old part.new actors.old actors.new result }
{
    let number = match actors.number(actor) {
        Ok(number) => number,
        Err(_) => return Err(Stop::Memory),
    };
    match take_writer::<S>(actors, number) {
        Some(writer) => {
            let outcome = give_bytes(&mut part.cache, writer, body, now);
            set_back::<S>(actors, number, outcome)
        }
        None => Ok(idle()),
    }
}

// Gives bytes to the writer of an open put.
fn give_bytes<S: Calls>(
    cache: &mut S,
    mut writer: S::Writer,
    body: &[u8],
    now: u64,
) -> Outcome<S::Writer>
    requires holds { S.holds cache.old }
    requires plain { (S.at cache.old).setting ≡ plain_setting }
    requires writer { IsOpenWriter (state_at (S.at cache.old)) (S.written writer) }
    ensures leaves { LeavesWriter S.Calls cache.old cache.new (S.written writer).put
        result.left result.answer }
    ensures stands { StaysStanding S.stands (IsToldFrom (state_at (S.at cache.new))
        (S.written writer) body.now) cache.old cache.new }
    ensures does { WriterDoes now (S.at cache.old) (S.at cache.new) (FeedsLine body.now)
        (S.written writer) (option_map S.written result.left) result.answer }
{
    let Fed { taken, refused } = feed(cache, &mut writer, body, now);
    Outcome {
        answer: fed_answer(body.len() as u64, taken, refused),
        left: keep_open(cache, writer),
    }
}

fn fed_answer(size: u64, taken: u64, refused: Option<Refusal>) -> Option<StepAnswer>
    ensures { result ≡ fed_answer size taken refused }
{
    match refused {
        None => Some(StepAnswer::Took { count: size }),
        Some(why) => answer_unless_memory(why, Some(taken)),
    }
}

// ---- close

/// Closes the put that an actor writes.
pub(crate) fn close_line<S: Calls>(
    session: &mut Session<S>,
    actor: &[u8],
) -> Result<StepAnswer, Stop>
    requires session { IsSession session.old }
    requires few { length (names_in session.old) < 2 ^ 32 - 1 }
    ensures line { AnswersLine (step.Close actor.now) session.old session.new result }
{
    match &mut session.part {
        Some(part) => close_in(part, &mut session.actors, actor, session.now),
        None => Err(Stop::NoCache),
    }
}

fn close_in<S: Calls>(
    part: &mut Part<S>,
    actors: &mut Actors<ActorHolding<S::Writer, S::Reader>>,
    actor: &[u8],
    now: u64,
) -> Result<StepAnswer, Stop>
    requires active { IsActive part.old (slots_of S.Calls actors.old) }
    requires few { length actors.old.names < 2 ^ 32 - 1 }
    ensures line { AnswersActor now (step.Close actor.now)
        part.old part.new actors.old actors.new result }
{
    let number = match actors.number(actor) {
        Ok(number) => number,
        Err(_) => return Err(Stop::Memory),
    };
    match take_writer::<S>(actors, number) {
        Some(writer) => {
            let outcome = finish(&mut part.cache, writer, now);
            set_back::<S>(actors, number, outcome)
        }
        None => Ok(idle()),
    }
}

// Closes an open put.
fn finish<S: Calls>(cache: &mut S, mut writer: S::Writer, now: u64) -> Outcome<S::Writer>
    requires holds { S.holds cache.old }
    requires plain { (S.at cache.old).setting ≡ plain_setting }
    requires writer { IsOpenWriter (state_at (S.at cache.old)) (S.written writer) }
    ensures leaves { LeavesWriter S.Calls cache.old cache.new (S.written writer).put
        result.left result.answer }
    ensures stands { StaysStanding S.stands (IsToldClosed (state_at (S.at cache.new))
        (S.written writer)) cache.old cache.new }
    ensures does { WriterDoes now (S.at cache.old) (S.at cache.new) ClosesLine
        (S.written writer) (option_map S.written result.left) result.answer }
{
    let result = cache.close_write(&mut writer, now);
    Outcome {
        answer: closed_answer(result),
        left: keep_open(cache, writer),
    }
}

// ---- abort

/// Gives the put up that an actor writes.
pub(crate) fn abort_line<S: Calls>(
    session: &mut Session<S>,
    actor: &[u8],
) -> Result<StepAnswer, Stop>
    requires session { IsSession session.old }
    requires few { length (names_in session.old) < 2 ^ 32 - 1 }
    ensures line { AnswersLine (step.Abort actor.now) session.old session.new result }
{
    match &mut session.part {
        Some(part) => abort_in(part, &mut session.actors, actor, session.now),
        None => Err(Stop::NoCache),
    }
}

fn abort_in<S: Calls>(
    part: &mut Part<S>,
    actors: &mut Actors<ActorHolding<S::Writer, S::Reader>>,
    actor: &[u8],
    now: u64,
) -> Result<StepAnswer, Stop>
    requires active { IsActive part.old (slots_of S.Calls actors.old) }
    requires few { length actors.old.names < 2 ^ 32 - 1 }
    ensures line { AnswersActor now (step.Abort actor.now)
        part.old part.new actors.old actors.new result }
{
    let number = match actors.number(actor) {
        Ok(number) => number,
        Err(_) => return Err(Stop::Memory),
    };
    match take_writer::<S>(actors, number) {
        Some(writer) => {
            let outcome = give_up(&mut part.cache, writer);
            set_back::<S>(actors, number, outcome)
        }
        None => Ok(idle()),
    }
}

// Gives an open put up.
fn give_up<S: Calls>(cache: &mut S, mut writer: S::Writer) -> Outcome<S::Writer>
    requires holds { S.holds cache.old }
    requires plain { (S.at cache.old).setting ≡ plain_setting }
    requires writer { IsOpenWriter (state_at (S.at cache.old)) (S.written writer) }
    ensures leaves { LeavesWriter S.Calls cache.old cache.new (S.written writer).put
        result.left result.answer }
    ensures stands { StaysStanding S.stands AnyContents cache.old cache.new }
    ensures does { (now : ℕ) → WriterDoes now (S.at cache.old) (S.at cache.new) GivesUpLine
        (S.written writer) (option_map S.written result.left) result.answer }
{
    match cache.abort_write(&mut writer) {
        Ok(put) => Outcome {
            answer: Some(StepAnswer::Aborted { put }),
            left: None,
        },
        Err(why) => Outcome {
            answer: answer_unless_memory(why, None),
            left: None,
        },
    }
}
