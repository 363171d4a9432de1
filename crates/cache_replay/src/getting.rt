// Whole bodies are read.
ghost use Rattle.std.specs.Prelude.{◌≡◌, None, Some, [], ◌∷◌, length, IfOk, OnOk};
ghost use Rattle.cache_model.specs.Permit.{StopReading};
ghost use Rattle.cache_model.specs.Contents.{AnyContents};
ghost use Rattle.cache_calls.specs.Actors.{IsOpenReader};
ghost use Rattle.cache_model.specs.Subjects.{IsOfReader};
ghost use Rattle.cache_calls.specs.Adds.{AddsOnly};
ghost use Rattle.cache_calls.specs.Keeping.{KeepsUnharmed, state_at};
ghost use Rattle.cache_calls.specs.Standing.{StaysStanding};
ghost use Rattle.script_grammar.specs.declared.step.Step.TheVariants as step;
ghost use Rattle.cache_replay.specs.OneLine.{AnswersLine, AnswersPlainly};
ghost use Rattle.cache_replay.specs.ReaderLines.{IsReadyToRead, LeavesReader};
ghost use Rattle.cache_replay.specs.Session.{IsPart, IsSession, state_in_part};
ghost use Rattle.cache_replay.specs.Getting.{ClosesHit, Gets, IsHit, ReadsMore, ReadsWhole, got_answer};

use crate::answers::{broken_said, miss_said};
use crate::session::{Part, Session};
use crate::stop::Stop;
use alternate_vector::Fields;
use cache_calls::{Calls, NextPiece, Opened};
use cache_model::Cause;
use script_grammar::{ByteList, StepAnswer};
use std::alloc::{AllocError, Global};
use tape_base::{Actor, Key};

/// What a whole read gave.
#[derive(Debug, Drop)]
pub(crate) enum Got {
    Whole {
        put: u64,
        length: u64,
        body: Vec<u8>,
    },
    Broken(Cause),
    Follow {
        put: u64,
    },
    Miss(Cause),
}

/// Looks a key up, and where a stored alternate is hit reads it to its end.
pub(crate) fn get<S: Calls>(
    alloc: Global,
    cache: &mut S,
    page: &mut [u8],
    key: Key,
    request: Fields,
) -> Result<Got, AllocError>
    requires ready { IsReadyToRead S.Calls cache.old page.old }
    ensures leaves { LeavesReader S.Calls cache.old cache.new
        (state_at (S.at cache.old)).next_reader }
    ensures gets { Gets S.Calls cache.old cache.new key request result }
    ensures page { length page.new ≡ length page.old }
{
    match cache.open_read(Actor(0), key, request)? {
        Opened::Hit {
            reader,
            put,
            length: size,
        } => read_whole(alloc, cache, page, reader, put, size),
        Opened::Follow { reader, put } => {
            close(cache, reader)?;
            Ok(Got::Follow { put })
        }
        Opened::Miss(why) => Ok(Got::Miss(why)),
    }
}

// Reads what a reader hit, which has so many bytes, to its end, and closes the reader.
fn read_whole<S: Calls>(
    alloc: Global,
    cache: &mut S,
    page: &mut [u8],
    reader: S::Reader,
    put: u64,
    size: u64,
) -> Result<Got, AllocError>
    requires ready { IsReadyToRead S.Calls cache.old page.old }
    requires hit { IsHit (state_at (S.at cache.old)) (S.reading reader) put }
    ensures leaves { LeavesReader S.Calls cache.old cache.new (S.reading reader).reader }
    ensures reads { ReadsWhole S.Calls cache.old cache.new (S.reading reader) [] result }
    ensures page { length page.new ≡ length page.old }
{
    let mut reader = reader;
    match read_to_end(alloc, cache, page, &mut reader, put, size) {
        Ok(got) => {
            close(cache, reader)?;
            Ok(got)
        }
        Err(e) => Err(e),
    }
}

// Reads what a reader hit to its end. Memory for its bytes is made once, before the first is read.
fn read_to_end<S: Calls>(
    alloc: Global,
    cache: &mut S,
    page: &mut [u8],
    reader: &mut S::Reader,
    put: u64,
    size: u64,
) -> Result<Got, AllocError>
    requires ready { IsReadyToRead S.Calls cache.old page.old }
    requires hit { IsHit (state_at (S.at cache.old)) (S.reading reader.old) put }
    ensures leaves { LeavesReader S.Calls cache.old cache.new (S.reading reader.old).reader }
    ensures reads { ReadsWhole S.Calls cache.old cache.new (S.reading reader.old)
        (StopReading (S.reading reader.old).reader ∷ []) result }
    ensures reader { IsOpenReader (state_at (S.at cache.new)) (S.reading reader.new) }
    ensures number { (S.reading reader.new).reader ≡ (S.reading reader.old).reader }
    ensures page { length page.new ≡ length page.old }
{
    let mut body = Vec::with_capacity(alloc, size as usize)?;
    loop {
        match read_more(cache, page, reader, &mut body)? {
            NextPiece::Piece { .. } => {}
            NextPiece::End { length } => return Ok(Got::Whole { put, length, body }),
            NextPiece::NotYet { .. } => return Ok(Got::Follow { put }),
            NextPiece::Broken(why) => return Ok(Got::Broken(why)),
        }
    }
}

// Reads the next fragment, and appends it to the body.
fn read_more<S: Calls>(
    cache: &mut S,
    page: &mut [u8],
    reader: &mut S::Reader,
    body: &mut Vec<u8>,
) -> Result<NextPiece, AllocError>
    requires ready { IsReadyToRead S.Calls cache.old page.old }
    requires hit { let r = S.reading reader.old in IsHit (state_at (S.at cache.old)) r r.put }
    ensures leaves { LeavesReader S.Calls cache.old cache.new (S.reading reader.old).reader }
    ensures reads { ReadsMore S.Calls cache.old cache.new (S.reading reader.old)
        (S.reading reader.new) body.old.items body.new.items result }
    ensures page { length page.new ≡ length page.old }
{
    match cache.read_next(reader, page)? {
        NextPiece::Piece { index, length } => {
            body.extend_from_slice(&page[..length as usize])?;
            Ok(NextPiece::Piece { index, length })
        }
        NextPiece::End { length } => Ok(NextPiece::End { length }),
        NextPiece::NotYet { cut } => Ok(NextPiece::NotYet { cut }),
        NextPiece::Broken(why) => Ok(NextPiece::Broken(why)),
    }
}

// Closes a reader.
fn close<S: Calls>(cache: &mut S, reader: S::Reader) -> Result<(), AllocError>
    requires holds { S.holds cache.old }
    requires reader { IsOpenReader (state_at (S.at cache.old)) (S.reading reader) }
    ensures keeps { KeepsUnharmed S.at S.holds cache.old cache.new }
    ensures own { AddsOnly (IsOfReader (S.reading reader).reader)
        (S.at cache.old) (S.at cache.new) }
    ensures closes { OnOk result (ClosesHit S.Calls cache.old cache.new
        (S.reading reader).reader) }
    ensures stands { StaysStanding S.stands AnyContents cache.old cache.new }
{
    match cache.close_read(reader) {
        Ok(()) => Ok(()),
        Err((e, _reader)) => Err(e),
    }
}

/// Reads a whole body, in a line.
pub(crate) fn get_line<S: Calls>(
    session: &mut Session<S>,
    key: Key,
    request: Fields,
) -> Result<StepAnswer, Stop>
    requires session { IsSession session.old }
    ensures line { AnswersLine (step.Get key request) session.old session.new result }
{
    match &mut session.part {
        Some(part) => get_in_part(session.alloc, part, key, request, session.now),
        None => Err(Stop::NoCache),
    }
}

// Reads it, where there is a cache.
fn get_in_part<S: Calls>(
    alloc: Global,
    part: &mut Part<S>,
    key: Key,
    request: Fields,
    now: u64,
) -> Result<StepAnswer, Stop>
    requires part { IsPart part.old }
    ensures line { AnswersPlainly now (step.Get key request) None
        (Some (state_in_part part.old).next_reader) part.old part.new result }
{
    match get(alloc, &mut part.cache, &mut part.page, key, request) {
        Ok(got) => Ok(said_of(got)),
        Err(e) => Err(Stop::from(e)),
    }
}

// As it is answered.
fn said_of(got: Got) -> StepAnswer
    ensures { result ≡ got_answer got }
{
    match got {
        Got::Whole { put, length, body } => StepAnswer::Got {
            put,
            length,
            bytes: ByteList::new(body),
        },
        Got::Broken(why) => broken_said(why),
        Got::Follow { put } => StepAnswer::Follow { put },
        Got::Miss(why) => miss_said(why),
    }
}
