// The lines of a script, one after the other.
ghost use Rattle.std.specs.Prelude.{◌≡◌, ◌+◌, ◌<◌, ◌≤◌, ℕ, false, List, [], length, OnOk, IfErr, MatchResult};
ghost use Rattle.device_log.specs.Streams.{SourceRead, SinkWrite};
ghost use Rattle.edge_io.specs.Source.{Draws, NoReadFailed};
ghost use Rattle.edge_io.specs.Sink.{Grows};
ghost use Rattle.edge_io.specs.LineReader.{held, lines_given, source_of};
ghost use Rattle.device_bay.specs.Calls.{out_of, refusals_of};
ghost use Rattle.script_grammar.specs.Texts.{answer_line};
ghost use Rattle.script_run.specs.Run.{fresh};
ghost use Rattle.run_promise.specs.Outline.{blank_outline};
ghost use Rattle.cache_replay.specs.Replay.{IsOutlined, IsReplay, PlaysOn, actors_in, devices_in, returns_in};
ghost use Rattle.script_run.specs.Ledger.{AreReached, KeepsOrder, Ledger, ledger_of};
ghost use Rattle.cache_replay.specs.Stop.{RefusesNone};
ghost use Rattle.run_promise.specs.Story.{GoesOn, Owes, OwesOrGave, SinkTook, refusals_around};
ghost use Rattle.run_script.specs.Halt.{AnswerIsUnwritten, AnswerIsWritten, StepHalts, is_bay_halt, last_of, ending_of};
ghost use Rattle.run_script.specs.Ending.{EndsRun, FailedReads, IsOfRun, is_bay_ending};

use crate::lines::{Reading, next_reading};
use cache_calls::{Formats, Powered};
use cache_replay::{Replay, Stop, step};
use device_bay::Bay;
use edge_io::{LineFault, LineReader, MAX_LINES, Sink, Source};
use script_grammar::{LastLine, LineAnswer, Step, StepAnswer};
use script_lang::answer_text;
use std::alloc::Global;

/// How a run of lines ends.
#[derive(Clone, Copy, Debug)]
pub enum Ending {
    Done,
    Stopped(LastLine),
    WriteFault,
    OutOfMemory,
}

/// Why a step ends the run.
#[derive(Debug, Drop)]
pub enum Halt {
    /// It was not done.
    Stop(Stop),
    WriteFault,
    /// It was done, and there is no memory for its answer.
    Memory,
}

/// Writes an answer out.
fn write_answer<K: Sink>(alloc: Global, sink: &mut K, said: &StepAnswer) -> Result<(), Halt>
    ensures written { OnOk result (SinkTook (K.writes sink.old) (K.writes sink.new) (answer_line said.now)) }
    ensures failed { IfErr result (AnswerIsUnwritten (K.writes sink.old) (K.writes sink.new) (answer_line said.now)) }
    ensures grows { Grows (K.writes sink.old) (K.writes sink.new) }
{
    let mut text = Vec::new(alloc);
    let Ok(()) = answer_text(said, &mut text) else {
        return Err(Halt::Memory);
    };
    match sink.write_all(&text) {
        Ok(()) => Ok(()),
        Err(_) => Err(Halt::WriteFault),
    }
}

/// Does a step, and writes its answer out.
pub fn take_step<K: Sink, B: Bay, C: Formats<B::Dev> + Powered>(
    alloc: Global,
    sink: &mut K,
    bay: &mut B,
    replay: &mut Replay<B::Dev, C>,
    asked: Step,
) -> Result<(), Halt>
    requires replay { IsReplay replay.old }
    requires held { devices_in replay.old ≤ out_of (B.past bay.old) }
    requires few { length (actors_in replay.old) ≤ MAX_LINES }
    ensures done { OnOk result
        (AnswerIsWritten replay.old asked replay.new (ledger_of B.Bay bay.old)
        (ledger_of B.Bay bay.new) (SinkTook (K.writes sink.old) (K.writes sink.new))) }
    ensures halted { IfErr result (StepHalts replay.old asked replay.new
        (ledger_of B.Bay bay.old) (ledger_of B.Bay bay.new) (K.writes sink.old) (K.writes sink.new)
        (B.past bay.old) (B.past bay.new)) }
    ensures replay { IsReplay replay.new }
    ensures names { length (actors_in replay.new) ≤ length (actors_in replay.old) + 1 }
    ensures out { out_of (B.past bay.new) + devices_in replay.old ≡ out_of (B.past bay.old) + devices_in replay.new }
    ensures sink { Grows (K.writes sink.old) (K.writes sink.new) }
    ensures order { KeepsOrder (returns_in replay.old) (B.past bay.old)
        (returns_in replay.new) (B.past bay.new) }
    ensures refusals { MatchResult result (λ _. RefusesNone (B.past bay.old) (B.past bay.new))
        (λ halt. is_bay_halt halt ≡ false → RefusesNone (B.past bay.old) (B.past bay.new)) }
{
    match step(replay, bay, asked) {
        Ok(said) => write_answer(alloc, sink, &said),
        Err(why) => Err(Halt::Stop(why)),
    }
}

/// The last line that a fault of the reader asks for.
pub fn last_of(fault: LineFault) -> LastLine
    ensures { result ≡ last_of fault }
{
    match fault {
        LineFault::LineTooLong { line } => LastLine::LineTooLong { line },
        LineFault::TooManyLines => LastLine::TooManyLines,
        LineFault::ReadFault { .. } => LastLine::ReadFault,
    }
}

/// How the run ends at this line.
pub fn ending_of(line: u64, halt: Halt) -> Ending
    ensures { result ≡ ending_of line halt }
{
    match halt {
        Halt::Stop(Stop::NoCache) => Ending::Stopped(LastLine::NoCache { line }),
        Halt::Stop(Stop::BayFault) => Ending::Stopped(LastLine::BayFault),
        Halt::Stop(Stop::Memory) | Halt::Memory => Ending::OutOfMemory,
        Halt::WriteFault => Ending::WriteFault,
    }
}

/// Does what the next line asks for, or ends the run.
fn line<S: Source, K: Sink, B: Bay, C: Formats<B::Dev> + Powered>(
    alloc: Global,
    reader: &mut LineReader<'_, S>,
    sink: &mut K,
    bay: &mut B,
    replay: &mut Replay<B::Dev, C>,
) -> Result<(), Ending>
    requires replay { IsReplay replay.old }
    requires held { devices_in replay.old ≤ out_of (B.past bay.old) }
    requires few { length (actors_in replay.old) ≤ lines_given reader.old }
    ensures goes { OnOk result ((first : List SourceRead) (told : List SinkWrite) (back : Ledger)
        → GoesOn first told back (S.reads (source_of reader.old).now) (held reader.old)
        (lines_given reader.old) (K.writes sink.old) (ledger_of B.Bay bay.old)
        (λ o. IsOutlined o replay.old) (λ run. PlaysOn run replay.old)
        → GoesOn first told back (S.reads (source_of reader.new).now) (held reader.new)
        (lines_given reader.new) (K.writes sink.new) (ledger_of B.Bay bay.new)
        (λ o. IsOutlined o replay.new) (λ run. PlaysOn run replay.new)) }
    ensures ends { IfErr result (λ ending. (first : List SourceRead) (told : List SinkWrite)
        (back : Ledger) → GoesOn first told back (S.reads (source_of reader.old).now)
        (held reader.old) (lines_given reader.old) (K.writes sink.old) (ledger_of B.Bay bay.old)
        (λ o. IsOutlined o replay.old) (λ run. PlaysOn run replay.old)
        → EndsRun first (S.reads (source_of reader.new).now) told (K.writes sink.new)
        (refusals_around (refusals_of (B.past bay.old)) (refusals_of (B.past bay.new)))
        (Owes back (ledger_of B.Bay bay.new)
        (λ harms. AreReached harms (returns_in replay.new)))
        (OwesOrGave back (ledger_of B.Bay bay.new) (devices_in replay.new)
        (λ harms. AreReached harms (returns_in replay.new))) ending) }
    ensures begun { IfErr result IsOfRun }
    ensures reads { MatchResult result (λ _. NoReadFailed (S.reads (source_of reader.old).now) (S.reads (source_of reader.new).now))
        (FailedReads (S.reads (source_of reader.old).now) (S.reads (source_of reader.new).now)) }
    ensures nearer { OnOk result ((lines_given reader.old < MAX_LINES) × (lines_given reader.new ≡ lines_given reader.old + 1)) }
    ensures replay { IsReplay replay.new }
    ensures few { OnOk result (length (actors_in replay.new) ≤ lines_given reader.new) }
    ensures source { (source_of reader.new).ghost_name ≡ (source_of reader.old).ghost_name }
    ensures out { out_of (B.past bay.new) + devices_in replay.old ≡ out_of (B.past bay.old) + devices_in replay.new }
    ensures draws { Draws S.reads S.left (source_of reader.old).now (source_of reader.new).now }
    ensures sink { Grows (K.writes sink.old) (K.writes sink.new) }
    ensures order { KeepsOrder (returns_in replay.old) (B.past bay.old)
        (returns_in replay.new) (B.past bay.new) }
    ensures refusals { MatchResult result (λ _. RefusesNone (B.past bay.old) (B.past bay.new))
        (λ ending. is_bay_ending ending ≡ false → RefusesNone (B.past bay.old) (B.past bay.new)) }
{
    match next_reading(alloc, reader) {
        Reading::End => Err(Ending::Done),
        Reading::Fault(fault) => Err(Ending::Stopped(last_of(fault))),
        Reading::Memory => Err(Ending::OutOfMemory),
        Reading::Line(LineAnswer::Nothing) => Ok(()),
        Reading::Line(LineAnswer::Bad(fault)) => Err(Ending::Stopped(LastLine::BadScript {
            line: reader.lines_given(),
            fault,
        })),
        Reading::Line(LineAnswer::Step(asked)) => match take_step(alloc, sink, bay, replay, asked) {
            Ok(()) => Ok(()),
            Err(halt) => Err(ending_of(reader.lines_given(), halt)),
        },
    }
}

/// Does what each line asks for, up to the end of the script or to what ends the run.
pub(crate) fn run_lines<S: Source, K: Sink, B: Bay, C: Formats<B::Dev> + Powered>(
    alloc: Global,
    reader: &mut LineReader<'_, S>,
    sink: &mut K,
    bay: &mut B,
    replay: &mut Replay<B::Dev, C>,
) -> Ending
    requires given { lines_given reader.old ≡ 0 }
    requires held { held reader.old ≡ [] }
    requires replay { IsReplay replay.old }
    requires fresh { PlaysOn fresh replay.old }
    requires blank { IsOutlined blank_outline replay.old }
    requires none { devices_in replay.old ≡ 0 }
    requires names { actors_in replay.old ≡ [] }
    ensures ends { EndsRun (S.reads (source_of reader.old).now) (S.reads (source_of reader.new).now)
        (K.writes sink.old) (K.writes sink.new)
        (refusals_around (refusals_of (B.past bay.old)) (refusals_of (B.past bay.new)))
        (Owes (ledger_of B.Bay bay.old) (ledger_of B.Bay bay.new)
        (λ harms. AreReached harms (returns_in replay.new)))
        (OwesOrGave (ledger_of B.Bay bay.old) (ledger_of B.Bay bay.new) (devices_in replay.new)
        (λ harms. AreReached harms (returns_in replay.new))) result }
    ensures begun { IsOfRun result }
    ensures reads { FailedReads (S.reads (source_of reader.old).now) (S.reads (source_of reader.new).now) result }
    ensures source { (source_of reader.new).ghost_name ≡ (source_of reader.old).ghost_name }
    ensures out { out_of (B.past bay.new) ≡ out_of (B.past bay.old) + devices_in replay.new }
    ensures draws { Draws S.reads S.left (source_of reader.old).now (source_of reader.new).now }
    ensures sink { Grows (K.writes sink.old) (K.writes sink.new) }
    ensures order { KeepsOrder (returns_in replay.old) (B.past bay.old)
        (returns_in replay.new) (B.past bay.new) }
    ensures refusals { is_bay_ending result ≡ false → RefusesNone (B.past bay.old) (B.past bay.new) }
{
    'lines: loop {
        match line(alloc, reader, sink, bay, replay) {
            Ok(()) => {}
            Err(ending) => return ending,
        }
    }
}
