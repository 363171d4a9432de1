// A run of `work`: the lines before the jobs, the jobs, and what is printed of them.
ghost use Rattle.std.specs.Prelude.{◌≡◌, ◌≢◌, ◌⊎◌, ◌+◌, ◌≤◌, [], true, false, is_some, Some, None, IfNone, length, IfOk, IfErr, IfSome, MatchResult, option_map, vec_len};
ghost use Rattle.edge_io.specs.Source.{Draws, NoReadFailed};
ghost use Rattle.edge_io.specs.Sink.{Grows};
ghost use Rattle.edge_io.specs.LineReader.{held, lines_given, source_of};
ghost use Rattle.device_bay.specs.Calls.{gifts_of, out_of, refusals_of, returned_by};
ghost use Rattle.script_run.specs.Run.{fresh};
ghost use Rattle.script_run.specs.Ledger.{AreReached, InOrder, KeepsOrder, ledger_of};
ghost use Rattle.run_promise.specs.Outline.{blank_outline};
ghost use Rattle.run_promise.specs.Story.{Owes, OwesOrGave, refusals_around};
ghost use Rattle.run_promise.specs.Top.{AttachesRefused, ComeBackSteady, ReadsFailed};
ghost use Rattle.cache_replay.specs.Replay.{IsReplay, devices_in, actors_in, returns_in, IsOutlined, PlaysOn};
ghost use Rattle.cache_replay.specs.Stop.{RefusesNone};
ghost use Rattle.run_script.specs.Ending.{FailedReads, IsOfRun, is_bay_ending};
ghost use Rattle.job_lines.specs.Asked.{lanes_in};
ghost use Rattle.work_script.specs.Before.{EndsBy};
ghost use Rattle.work_script.specs.Turns.{AreSaid, turns_in};
ghost use Rattle.work_script.specs.Printing.{Says, SaysTurns};
ghost use Rattle.work_script.specs.Ending.{ComesToJobs, ConcludesWork, WorkBecause};

use crate::before::run_before;
use crate::jobs::do_jobs_beside;
use crate::turns::{Row, print_turns};
use cache_calls::{Calls, Formats, Powered};
use cache_replay::{Replay, begin, close, has_cache};
use device_bay::Bay;
use edge_io::{LineBuffer, LineReader, Sink, Source};
use job_lines::{Asked, read_jobs};
use lock_workers::Gate;
use logged_disk::Disk;
use run_promise::Status;
use run_script::{Ending, conclude};
use script_grammar::LastLine;
use std::alloc::Global;
use std::sync::Wait;
use std::thread::Threads;

/// The line of the first job, where there is one and no cache.
fn uncached<D: Disk, C: Calls>(asked: &Asked, replay: &Replay<D, C>) -> Option<u64>
    ensures some { IfSome result (λ line. (asked.now.first ≡ Some line) × (is_some replay.now.session.part ≡ false)) }
    ensures none { IfNone result ((asked.now.first ≡ None) ⊎ (is_some replay.now.session.part ≡ true)) }
{
    match asked.first {
        Some(line) if !has_cache(replay) => Some(line),
        _ => None,
    }
}

/// Does the lines before the jobs, and reads those behind them.
fn read_script<S: Source, K: Sink, B: Bay, C: Formats<B::Dev> + Powered>(
    alloc: Global,
    workers: u32,
    reader: &mut LineReader<'_, S>,
    sink: &mut K,
    bay: &mut B,
    replay: &mut Replay<B::Dev, C>,
) -> Result<Asked, Ending>
    requires few { workers ≤ 16 }
    requires given { lines_given reader.old ≡ 0 }
    requires held { held reader.old ≡ [] }
    requires replay { IsReplay replay.old }
    requires fresh { PlaysOn fresh replay.old }
    requires blank { IsOutlined blank_outline replay.old }
    requires none { devices_in replay.old ≡ 0 }
    requires names { actors_in replay.old ≡ [] }
    ensures comes { IfOk result (λ asked. ComesToJobs workers (S.reads (source_of reader.old).now) (K.writes sink.old) (ledger_of B.Bay bay.old)
        (S.reads (source_of reader.new).now) (K.writes sink.new) (ledger_of B.Bay bay.new)
        (λ o. IsOutlined o replay.new) (λ run. PlaysOn run replay.new) (lanes_in asked)) }
    ensures width { IfOk result (λ asked. vec_len asked.lanes ≡ workers) }
    ensures ends { IfErr result (EndsBy
        (WorkBecause workers (refusals_around (refusals_of (B.past bay.old)) (refusals_of (B.past bay.new))) (S.reads (source_of reader.new).now))
        (S.reads (source_of reader.old).now) (S.reads (source_of reader.new).now)
        (K.writes sink.old) (K.writes sink.new)
        (Owes (ledger_of B.Bay bay.old) (ledger_of B.Bay bay.new)
        (λ harms. AreReached harms (returns_in replay.new)))
        (OwesOrGave (ledger_of B.Bay bay.old) (ledger_of B.Bay bay.new) (devices_in replay.new)
        (λ harms. AreReached harms (returns_in replay.new)))) }
    ensures begun { IfErr result IsOfRun }
    ensures reads { MatchResult result (λ _. NoReadFailed (S.reads (source_of reader.old).now) (S.reads (source_of reader.new).now))
        (FailedReads (S.reads (source_of reader.old).now) (S.reads (source_of reader.new).now)) }
    ensures replay { IsReplay replay.new }
    ensures source { (source_of reader.new).ghost_name ≡ (source_of reader.old).ghost_name }
    ensures out { out_of (B.past bay.new) ≡ out_of (B.past bay.old) + devices_in replay.new }
    ensures draws { Draws S.reads S.left (source_of reader.old).now (source_of reader.new).now }
    ensures sink { Grows (K.writes sink.old) (K.writes sink.new) }
    ensures order { KeepsOrder (returns_in replay.old) (B.past bay.old)
        (returns_in replay.new) (B.past bay.new) }
    ensures refusals { MatchResult result (λ _. RefusesNone (B.past bay.old) (B.past bay.new))
        (λ ending. is_bay_ending ending ≡ false → RefusesNone (B.past bay.old) (B.past bay.new)) }
{
    match run_before(alloc, reader, sink, bay, replay) {
        Ok(()) => {}
        Err(ending) => return Err(ending),
    }
    match read_jobs(alloc, workers, reader) {
        Ok(asked) => match uncached(&asked, replay) {
            Some(line) => Err(Ending::Stopped(LastLine::NoCache { line })),
            None => Ok(asked),
        },
        Err(ending) => Err(ending),
    }
}

/// Begins a run: does the lines of its script before the jobs, and reads these.
fn begin_work<S: Source, K: Sink, B: Bay, C: Formats<B::Dev> + Powered>(
    alloc: Global,
    workers: u32,
    source: &mut S,
    sink: &mut K,
    bay: &mut B,
    replay: &mut Replay<B::Dev, C>,
) -> Result<Asked, Ending>
    requires few { workers ≤ 16 }
    requires replay { IsReplay replay.old }
    requires fresh { PlaysOn fresh replay.old }
    requires blank { IsOutlined blank_outline replay.old }
    requires none { devices_in replay.old ≡ 0 }
    requires names { actors_in replay.old ≡ [] }
    ensures comes { IfOk result (λ asked. ComesToJobs workers (S.reads source.old) (K.writes sink.old)
        (ledger_of B.Bay bay.old) (S.reads source.new) (K.writes sink.new) (ledger_of B.Bay bay.new)
        (λ o. IsOutlined o replay.new) (λ run. PlaysOn run replay.new) (lanes_in asked)) }
    ensures width { IfOk result (λ asked. vec_len asked.lanes ≡ workers) }
    ensures ends { IfErr result (EndsBy
        (WorkBecause workers (refusals_around (refusals_of (B.past bay.old)) (refusals_of (B.past bay.new))) (S.reads source.new))
        (S.reads source.old) (S.reads source.new) (K.writes sink.old) (K.writes sink.new)
        (Owes (ledger_of B.Bay bay.old) (ledger_of B.Bay bay.new)
        (λ harms. AreReached harms (returns_in replay.new)))
        (OwesOrGave (ledger_of B.Bay bay.old) (ledger_of B.Bay bay.new) (devices_in replay.new)
        (λ harms. AreReached harms (returns_in replay.new)))) }
    ensures begun { IfErr result IsOfRun }
    ensures reads { MatchResult result (λ _. NoReadFailed (S.reads source.old) (S.reads source.new))
        (FailedReads (S.reads source.old) (S.reads source.new)) }
    ensures replay { IsReplay replay.new }
    ensures out { out_of (B.past bay.new) ≡ out_of (B.past bay.old) + devices_in replay.new }
    ensures source { Draws S.reads S.left source.old source.new }
    ensures sink { Grows (K.writes sink.old) (K.writes sink.new) }
    ensures order { KeepsOrder (returns_in replay.old) (B.past bay.old)
        (returns_in replay.new) (B.past bay.new) }
    ensures refusals { MatchResult result (λ _. RefusesNone (B.past bay.old) (B.past bay.new))
        (λ ending. is_bay_ending ending ≡ false → RefusesNone (B.past bay.old) (B.past bay.new)) }
{
    let Ok(buffer) = LineBuffer::new(alloc) else {
        return Err(Ending::OutOfMemory);
    };
    let mut reader = LineReader::with_buffer(source, buffer);
    let asked = read_script(alloc, workers, &mut reader, sink, bay, replay);
    let _source = reader.into_source();
    asked
}

/// Says how a run ended, and writes its last line where it has one.
fn say<K: Sink>(alloc: Global, sink: &mut K, ending: Ending) -> Status
    ensures says { Says (K.writes sink.old) (K.writes sink.new) ending result }
    ensures grows { Grows (K.writes sink.old) (K.writes sink.new) }
{
    match ending {
        Ending::Done => Status::Done,
        Ending::Stopped(last) => conclude(alloc, sink, last),
        Ending::WriteFault => Status::WriteFault,
        Ending::OutOfMemory => Status::OutOfMemory,
    }
}

/// Says what came of the turns, and writes their lines out.
fn say_turns<K: Sink>(alloc: Global, sink: &mut K, rows: Option<Vec<Row>>) -> Status
    requires said { IfSome rows (λ all. AreSaid all.items) }
    ensures says { SaysTurns (K.writes sink.old) (K.writes sink.new) (option_map (λ all. turns_in all.items) rows) result }
    ensures grows { Grows (K.writes sink.old) (K.writes sink.new) }
{
    let Some(rows) = rows else {
        return Status::OutOfMemory;
    };
    match print_turns(alloc, sink, &rows) {
        Ok(()) => Status::Done,
        Err(Ending::WriteFault) => Status::WriteFault,
        Err(_) => Status::OutOfMemory,
    }
}

/// Runs a script whose lines behind `split` are jobs of so many workers: all jobs, in the order of
/// their turns, are lines behind those before it.
pub fn run_work<
    S: Source,
    K: Sink,
    B: Bay,
    V: Drop + Send,
    R: Drop + Send,
    C: Formats<B::Dev, Writer = V, Reader = R> + Powered + Send,
    H: Threads + Wait + Sync,
    G: Gate + Sync,
>(
    rt: &H,
    alloc: Global,
    workers: u32,
    source: &mut S,
    sink: &mut K,
    bay: &mut B,
    gate: &G,
) -> Status
    requires few { workers ≤ 16 }
    ensures concludes { ConcludesWork workers (S.reads source.old) (S.reads source.new) (K.writes sink.old) (K.writes sink.new)
        (refusals_around (refusals_of (B.past bay.old)) (refusals_of (B.past bay.new)))
        (ledger_of B.Bay bay.old) (ledger_of B.Bay bay.new) result }
    ensures begun { result ≢ Status.Usage }
    ensures reads { ReadsFailed (S.reads source.old) (S.reads source.new) result }
    ensures out { out_of (B.past bay.new) ≡ out_of (B.past bay.old) }
    ensures source { Draws S.reads S.left source.old source.new }
    ensures sink { Grows (K.writes sink.old) (K.writes sink.new) }
    ensures order { InOrder (length (gifts_of (B.past bay.old))) [] (B.past bay.old) (B.past bay.new) }
    ensures refusals { AttachesRefused (refusals_of (B.past bay.old)) (refusals_of (B.past bay.new)) result }
    ensures steady { ComeBackSteady (returned_by (B.past bay.old)) (returned_by (B.past bay.new)) }
{
    let mut replay: Replay<B::Dev, C> = begin(alloc);
    match begin_work(alloc, workers, source, sink, bay, &mut replay) {
        Ok(Asked { lanes, first: _ }) => {
            let (replay, rows) = do_jobs_beside(rt, alloc, replay, lanes, gate);
            close(replay, bay);
            say_turns(alloc, sink, rows)
        }
        Err(ending) => {
            close(replay, bay);
            say(alloc, sink, ending)
        }
    }
}
