// The lines before the jobs, one after the other.
ghost use Rattle.std.specs.Prelude.{◌≡◌, ◌+◌, ◌<◌, ◌≤◌, ℕ, false, List, [], length, IfOk, IfErr, OnOk, MatchResult};
ghost use Rattle.device_log.specs.Streams.{SourceRead, SinkWrite};
ghost use Rattle.edge_io.specs.Source.{Draws, NoReadFailed};
ghost use Rattle.edge_io.specs.Sink.{Grows};
ghost use Rattle.edge_io.specs.LineReader.{held, lines_given, source_of};
ghost use Rattle.device_bay.specs.Calls.{out_of, refusals_of};
ghost use Rattle.script_run.specs.Run.{fresh};
ghost use Rattle.script_run.specs.Ledger.{AreReached, KeepsOrder, Ledger, ledger_of};
ghost use Rattle.run_promise.specs.Outline.{blank_outline};
ghost use Rattle.run_promise.specs.Story.{GoesOn, Owes, OwesOrGave, refusals_around};
ghost use Rattle.cache_replay.specs.Replay.{IsReplay, devices_in, actors_in, returns_in, IsOutlined, PlaysOn};
ghost use Rattle.cache_replay.specs.Stop.{RefusesNone};
ghost use Rattle.run_script.specs.Ending.{FailedReads, IsOfRun, is_bay_ending};
ghost use Rattle.work_script.specs.Before.{BeforeBecause, ComesToSplit, EndsBy};
ghost use Rattle.work_script.specs.Working.{GoesOrSplits};

use crate::lines::{Reading, next_reading};
use cache_calls::{Formats, Powered};
use cache_replay::Replay;
use device_bay::Bay;
use edge_io::{LineReader, MAX_LINES, Sink, Source};
use run_script::{Ending, ending_of, last_of, take_step};
use script_grammar::{LastLine, LineAnswer};
use std::alloc::Global;

/// What a line before the jobs leads to.
#[derive(Clone, Copy, Debug)]
pub(crate) enum Next {
    Line,
    Jobs,
}

/// Does what the next line asks for, or ends the run.
fn line<S: Source, K: Sink, B: Bay, C: Formats<B::Dev> + Powered>(
    alloc: Global,
    reader: &mut LineReader<'_, S>,
    sink: &mut K,
    bay: &mut B,
    replay: &mut Replay<B::Dev, C>,
) -> Result<Next, Ending>
    requires replay { IsReplay replay.old }
    requires held { devices_in replay.old ≤ out_of (B.past bay.old) }
    requires few { length (actors_in replay.old) ≤ lines_given reader.old }
    ensures goes { IfOk result (λ next. (first : List SourceRead) (told : List SinkWrite) (back : Ledger)
        → GoesOn first told back (S.reads (source_of reader.old).now) (held reader.old)
        (lines_given reader.old) (K.writes sink.old) (ledger_of B.Bay bay.old)
        (λ o. IsOutlined o replay.old) (λ run. PlaysOn run replay.old)
        → GoesOrSplits first told back (S.reads (source_of reader.new).now) (held reader.new)
        (lines_given reader.new) (K.writes sink.new) (ledger_of B.Bay bay.new)
        (λ o. IsOutlined o replay.new) (λ run. PlaysOn run replay.new) next) }
    ensures ends { IfErr result (λ ending. (first : List SourceRead) (told : List SinkWrite)
        (back : Ledger) → GoesOn first told back (S.reads (source_of reader.old).now)
        (held reader.old) (lines_given reader.old) (K.writes sink.old) (ledger_of B.Bay bay.old)
        (λ o. IsOutlined o replay.old) (λ run. PlaysOn run replay.old)
        → EndsBy (BeforeBecause (refusals_around (refusals_of (B.past bay.old)) (refusals_of (B.past bay.new)))) first (S.reads (source_of reader.new).now) told (K.writes sink.new)
        (Owes back (ledger_of B.Bay bay.new)
        (λ harms. AreReached harms (returns_in replay.new)))
        (OwesOrGave back (ledger_of B.Bay bay.new) (devices_in replay.new)
        (λ harms. AreReached harms (returns_in replay.new))) ending) }
    ensures begun { IfErr result IsOfRun }
    ensures reads { MatchResult result (λ _. NoReadFailed (S.reads (source_of reader.old).now) (S.reads (source_of reader.new).now))
        (FailedReads (S.reads (source_of reader.old).now) (S.reads (source_of reader.new).now)) }
    ensures nearer { OnOk result ((lines_given reader.old < MAX_LINES) × (lines_given reader.new ≡ lines_given reader.old + 1)) }
    ensures replay { IsReplay replay.new }
    ensures few { OnOk result (length (actors_in replay.new) ≤ lines_given reader.new) }
    ensures source { (source_of reader.new).ghost_name ≡ (source_of reader.old).ghost_name }
    ensures out { out_of (B.past bay.new) + devices_in replay.old ≡ out_of (B.past bay.old) + devices_in replay.new }
    ensures draws { Draws S.reads S.left (source_of reader.old).now (source_of reader.new).now }
    ensures sink { Grows (K.writes sink.old) (K.writes sink.new) }
    ensures order { KeepsOrder (returns_in replay.old) (B.past bay.old)
        (returns_in replay.new) (B.past bay.new) }
    ensures refusals { MatchResult result (λ _. RefusesNone (B.past bay.old) (B.past bay.new))
        (λ ending. is_bay_ending ending ≡ false → RefusesNone (B.past bay.old) (B.past bay.new)) }
{
    match next_reading(alloc, reader) {
        Reading::End => Err(Ending::Done),
        Reading::Split => Ok(Next::Jobs),
        Reading::Fault(fault) => Err(Ending::Stopped(last_of(fault))),
        Reading::Memory => Err(Ending::OutOfMemory),
        Reading::Line(LineAnswer::Nothing) => Ok(Next::Line),
        Reading::Line(LineAnswer::Bad(fault)) => Err(Ending::Stopped(LastLine::BadScript {
            line: reader.lines_given(),
            fault,
        })),
        Reading::Line(LineAnswer::Step(asked)) => match take_step(alloc, sink, bay, replay, asked) {
            Ok(()) => Ok(Next::Line),
            Err(halt) => Err(ending_of(reader.lines_given(), halt)),
        },
    }
}

/// Does what each line asks for, up to `split`, or to what ends the run.
pub(crate) fn run_before<S: Source, K: Sink, B: Bay, C: Formats<B::Dev> + Powered>(
    alloc: Global,
    reader: &mut LineReader<'_, S>,
    sink: &mut K,
    bay: &mut B,
    replay: &mut Replay<B::Dev, C>,
) -> Result<(), Ending>
    requires given { lines_given reader.old ≡ 0 }
    requires held { held reader.old ≡ [] }
    requires replay { IsReplay replay.old }
    requires fresh { PlaysOn fresh replay.old }
    requires blank { IsOutlined blank_outline replay.old }
    requires none { devices_in replay.old ≡ 0 }
    requires names { actors_in replay.old ≡ [] }
    ensures splits { OnOk result (ComesToSplit (S.reads (source_of reader.old).now) (K.writes sink.old) (ledger_of B.Bay bay.old)
        (S.reads (source_of reader.new).now) (held reader.new) (lines_given reader.new) (K.writes sink.new) (ledger_of B.Bay bay.new)
        (λ o. IsOutlined o replay.new) (λ run. PlaysOn run replay.new)) }
    ensures ends { IfErr result (EndsBy
        (BeforeBecause (refusals_around (refusals_of (B.past bay.old)) (refusals_of (B.past bay.new))))
        (S.reads (source_of reader.old).now) (S.reads (source_of reader.new).now)
        (K.writes sink.old) (K.writes sink.new)
        (Owes (ledger_of B.Bay bay.old) (ledger_of B.Bay bay.new)
        (λ harms. AreReached harms (returns_in replay.new)))
        (OwesOrGave (ledger_of B.Bay bay.old) (ledger_of B.Bay bay.new) (devices_in replay.new)
        (λ harms. AreReached harms (returns_in replay.new)))) }
    ensures begun { IfErr result IsOfRun }
    ensures reads { MatchResult result (λ _. NoReadFailed (S.reads (source_of reader.old).now) (S.reads (source_of reader.new).now))
        (FailedReads (S.reads (source_of reader.old).now) (S.reads (source_of reader.new).now)) }
    ensures replay { IsReplay replay.new }
    ensures few { OnOk result (length (actors_in replay.new) ≤ lines_given reader.new) }
    ensures within { OnOk result (lines_given reader.new ≤ MAX_LINES) }
    ensures source { (source_of reader.new).ghost_name ≡ (source_of reader.old).ghost_name }
    ensures out { out_of (B.past bay.new) ≡ out_of (B.past bay.old) + devices_in replay.new }
    ensures draws { Draws S.reads S.left (source_of reader.old).now (source_of reader.new).now }
    ensures sink { Grows (K.writes sink.old) (K.writes sink.new) }
    ensures order { KeepsOrder (returns_in replay.old) (B.past bay.old)
        (returns_in replay.new) (B.past bay.new) }
    ensures refusals { MatchResult result (λ _. RefusesNone (B.past bay.old) (B.past bay.new))
        (λ ending. is_bay_ending ending ≡ false → RefusesNone (B.past bay.old) (B.past bay.new)) }
{
    'lines: loop {
        match line(alloc, reader, sink, bay, replay) {
            Ok(Next::Line) => {}
            Ok(Next::Jobs) => return Ok(()),
            Err(ending) => return Err(ending),
        }
    }
}
