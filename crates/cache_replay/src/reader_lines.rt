// The lines of readers: they open, read on and are closed.
ghost use Rattle.std.specs.Prelude.{ℕ, ◌≡◌, ◌==◌, ◌-◌, ◌^◌, ◌<◌, ◌≤◌, length, None, IfOk, IfErr, if◌then◌else◌, is_some, option_map};
ghost use Rattle.cache_calls.specs.Actors.{IsOpenReader};
ghost use Rattle.cache_calls.specs.Keeping.{plain_setting, state_at};
ghost use Rattle.script_grammar.specs.declared.step.Step.TheVariants as step;
ghost use Rattle.script_grammar.specs.declared.answer.StepAnswer.TheVariants as answer;
ghost use Rattle.cache_replay.specs.declared.stop.Stop.TheVariants as stop;
ghost use Rattle.cache_replay.specs.OneLine.{AnswersActor, AnswersLine};
ghost use Rattle.cache_replay.specs.ReaderLines.{IsReadyToRead, IsWithin, LeavesReader, ReadsOnLine, as_held, left_without_reader, next_answer, opened_answer, reader_held, reader_opened};
ghost use Rattle.cache_replay.specs.Session.{IsActive, IsSession, names_in, slots_of};

use crate::answers::{broken_said, miss_said};
use crate::session::{ActorHolding, Part, Session};
use crate::stop::Stop;
use actor_table::Actors;
use alternate_vector::Fields;
use cache_calls::{Calls, NextPiece, Opened};
use script_grammar::{ByteList, Refused, StepAnswer};
use std::alloc::{AllocError, Global};
use tape_base::{Actor, Key};

/// Opens a reader for an actor that has nothing.
pub(crate) fn open_read_line<S: Calls>(
    session: &mut Session<S>,
    actor: &[u8],
    key: Key,
    request: Fields,
) -> Result<StepAnswer, Stop>
    requires session { IsSession session.old }
    requires few { length (names_in session.old) < 2 ^ 32 - 1 }
    ensures line { AnswersLine (step.OpenRead actor.now key request)
        session.old session.new result }
{
    match &mut session.part {
        Some(part) => open_reader(part, &mut session.actors, actor, key, request, session.now),
        None => Err(Stop::NoCache),
    }
}

// Opens it, where there is a cache.
fn open_reader<S: Calls>(
    part: &mut Part<S>,
    actors: &mut Actors<ActorHolding<S::Writer, S::Reader>>,
    actor: &[u8],
    key: Key,
    request: Fields,
    now: u64,
) -> Result<StepAnswer, Stop>
    requires active { IsActive part.old (slots_of S.Calls actors.old) }
    requires few { length actors.old.names < 2 ^ 32 - 1 }
    ensures line { AnswersActor now (step.OpenRead actor.now key request)
        part.old part.new actors.old actors.new result }
{
    let number = actors.number(actor)?;
    if has_something::<S>(actors, number) {
        return Ok(refused(Refused::Busy));
    }
    let opened = part.cache.open_read(Actor(number), key, request)?;
    Ok(give_reader::<S>(actors, number, opened))
}

fn has_something<S: Calls>(actors: &Actors<ActorHolding<S::Writer, S::Reader>>, number: u32) -> bool
    ensures { result ≡ is_some (slots_of S.Calls actors.now number) }
{
    actors.get(number).is_some()
}

// Gives an actor that has nothing the reader that was opened.
fn give_reader<S: Calls>(
    actors: &mut Actors<ActorHolding<S::Writer, S::Reader>>,
    number: u32,
    opened: Opened<S::Reader>,
) -> StepAnswer
    requires known { 0 < number }
    requires within { number ≤ length actors.old.names }
    requires free { slots_of S.Calls actors.old number ≡ None }
    ensures answer { result ≡ opened_answer opened }
    ensures names { actors.new.names ≡ actors.old.names }
    ensures slots { (n : ℕ) → slots_of S.Calls actors.new n ≡ (if n == number then as_held (option_map S.reading (reader_opened opened)) else slots_of S.Calls actors.old n) }
{
    match opened {
        Opened::Hit {
            reader,
            put,
            length,
        } => {
            actors.set(number, ActorHolding::Reader(reader));
            StepAnswer::Hit { put, length }
        }
        Opened::Follow { reader, put } => {
            actors.set(number, ActorHolding::Reader(reader));
            StepAnswer::Follow { put }
        }
        Opened::Miss(why) => miss_said(why),
    }
}

/// Gives the reader of an actor its next piece.
pub(crate) fn next_line<S: Calls>(
    session: &mut Session<S>,
    actor: &[u8],
) -> Result<StepAnswer, Stop>
    requires session { IsSession session.old }
    requires few { length (names_in session.old) < 2 ^ 32 - 1 }
    ensures line { AnswersLine (step.Next actor.now) session.old session.new result }
{
    match &mut session.part {
        Some(part) => next(part, &mut session.actors, actor, session.alloc, session.now),
        None => Err(Stop::NoCache),
    }
}

// Gives it, where there is a cache.
fn next<S: Calls>(
    part: &mut Part<S>,
    actors: &mut Actors<ActorHolding<S::Writer, S::Reader>>,
    actor: &[u8],
    alloc: Global,
    now: u64,
) -> Result<StepAnswer, Stop>
    requires active { IsActive part.old (slots_of S.Calls actors.old) }
    requires few { length actors.old.names < 2 ^ 32 - 1 }
    ensures line { AnswersActor now (step.Next actor.now)
        part.old part.new actors.old actors.new result }
{
    let number = actors.number(actor)?;
    match take_reader::<S>(actors, number) {
        Some(mut reader) => {
            let said = read_on(&mut part.cache, &mut reader, &mut part.page, alloc);
            actors.set(number, ActorHolding::Reader(reader));
            said
        }
        None => Ok(refused(Refused::Idle)),
    }
}

// Reads the next piece to the page, and copies it.
fn read_on<S: Calls>(
    cache: &mut S,
    reader: &mut S::Reader,
    page: &mut [u8],
    alloc: Global,
) -> Result<StepAnswer, Stop>
    requires ready { IsReadyToRead S.Calls cache.old page.old }
    requires plain { (S.at cache.old).setting ≡ plain_setting }
    requires reader { IsOpenReader (state_at (S.at cache.old)) (S.reading reader.old) }
    ensures leaves { LeavesReader S.Calls cache.old cache.new (S.reading reader.old).reader }
    ensures reads { ReadsOnLine S.Calls cache.old cache.new (S.reading reader.old)
        (S.reading reader.new) result }
    ensures page { length page.new ≡ length page.old }
    ensures stop { IfErr result (λ why. why ≡ stop.Memory) }
{
    let piece = cache.read_next(reader, page)?;
    Ok(piece_said(piece, page, alloc)?)
}

// A piece stands at the front of the page.
fn piece_said(piece: NextPiece, page: &[u8], alloc: Global) -> Result<StepAnswer, AllocError>
    requires { IsWithin piece page.now }
    ensures { IfOk result (λ said. said ≡ next_answer piece page.now) }
{
    match piece {
        NextPiece::Piece { index, length } => {
            let bytes = page[..length as usize].to_vec(alloc)?;
            Ok(StepAnswer::Piece {
                index,
                length,
                bytes: ByteList::new(bytes),
            })
        }
        NextPiece::End { length } => Ok(StepAnswer::End { length }),
        NextPiece::NotYet { cut } => Ok(StepAnswer::NotYet { cut }),
        NextPiece::Broken(why) => Ok(broken_said(why)),
    }
}

/// Closes the reader of an actor.
pub(crate) fn done_line<S: Calls>(
    session: &mut Session<S>,
    actor: &[u8],
) -> Result<StepAnswer, Stop>
    requires session { IsSession session.old }
    requires few { length (names_in session.old) < 2 ^ 32 - 1 }
    ensures line { AnswersLine (step.Done actor.now) session.old session.new result }
{
    match &mut session.part {
        Some(part) => done(part, &mut session.actors, actor, session.now),
        None => Err(Stop::NoCache),
    }
}

// Closes the reader of an actor, where there is a cache.
fn done<S: Calls>(
    part: &mut Part<S>,
    actors: &mut Actors<ActorHolding<S::Writer, S::Reader>>,
    actor: &[u8],
    now: u64,
) -> Result<StepAnswer, Stop>
    requires active { IsActive part.old (slots_of S.Calls actors.old) }
    requires few { length actors.old.names < 2 ^ 32 - 1 }
    ensures line { AnswersActor now (step.Done actor.now)
        part.old part.new actors.old actors.new result }
{
    let number = actors.number(actor)?;
    match take_reader::<S>(actors, number) {
        Some(reader) => match part.cache.close_read(reader) {
            Ok(()) => Ok(StepAnswer::Done),
            Err((_, reader)) => {
                actors.set(number, ActorHolding::Reader(reader));
                Err(Stop::Memory)
            }
        },
        None => Ok(refused(Refused::Idle)),
    }
}

// Takes the reader of an actor, where it has one.
fn take_reader<S: Calls>(
    actors: &mut Actors<ActorHolding<S::Writer, S::Reader>>,
    number: u32,
) -> Option<S::Reader>
    requires known { 0 < number }
    requires within { number ≤ length actors.old.names }
    ensures reader { option_map S.reading result
        ≡ reader_held (slots_of S.Calls actors.old number) }
    ensures names { actors.new.names ≡ actors.old.names }
    ensures slots { (n : ℕ) → slots_of S.Calls actors.new n ≡ (if n == number then left_without_reader (slots_of S.Calls actors.old number) else slots_of S.Calls actors.old n) }
{
    match actors.take(number) {
        Some(ActorHolding::Reader(reader)) => Some(reader),
        Some(ActorHolding::Writer(writer)) => {
            actors.set(number, ActorHolding::Writer(writer));
            None
        }
        None => None,
    }
}

fn refused(why: Refused) -> StepAnswer
    ensures { result ≡ answer.Refused why None }
{
    StepAnswer::Refused { why, took: None }
}
