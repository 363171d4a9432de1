// The lines behind `split`, up to the end of the script.
ghost use Rattle.std.specs.Prelude.{◌≡◌, ◌+◌, ◌<◌, ◌≤◌, ℕ, true, false, List, IfOk, IfErr, OnOk, MatchResult, vec_len};
ghost use Rattle.device_log.specs.Streams.{SourceRead};
ghost use Rattle.edge_io.specs.Source.{Draws, NoReadFailed};
ghost use Rattle.edge_io.specs.LineReader.{held, lines_given, source_of};
ghost use Rattle.run_promise.specs.Story.{IsReadThrough};
ghost use Rattle.run_script.specs.Ending.{FailedReads};
ghost use Rattle.job_lines.specs.Reading.{AreAsked, ReadsNextJob, StopsJobs};

use crate::asked::Asked;
use edge_io::{LineFault, LineReader, MAX_LINES, Source};
use run_script::{Ending, last_of};
use script_grammar::LastLine;
use script_lang::{JobLine, read_job_line};
use std::alloc::Global;

/// What the next line behind `split` is.
#[derive(Debug, Drop)]
pub(crate) enum Reading {
    Line(JobLine),
    End,
    Fault(LineFault),
    Memory,
}

fn next_reading<S: Source>(alloc: Global, workers: u32, reader: &mut LineReader<'_, S>) -> Reading
    ensures { ReadsNextJob S.reads S.left workers reader.old reader.new result }
{
    match reader.next_line() {
        Ok(Some(line)) => match read_job_line(alloc, workers, line) {
            Ok(answer) => Reading::Line(answer),
            Err(_) => Reading::Memory,
        },
        Ok(None) => Reading::End,
        Err(fault) => Reading::Fault(fault),
    }
}

/// Takes the next line in; whether there was one.
fn read_job<S: Source>(
    alloc: Global,
    workers: u32,
    reader: &mut LineReader<'_, S>,
    asked: &mut Asked,
) -> Result<bool, Ending>
    requires width { vec_len asked.old.lanes ≡ workers }
    requires few { workers < 256 }
    ensures goes { IfOk result (λ some. (given : ℕ) (before : List ℕ) (first : List SourceRead)
        → AreAsked workers given before first (S.reads (source_of reader.old).now) (held reader.old)
        (lines_given reader.old) asked.old
        → AreAsked workers given before first (S.reads (source_of reader.new).now) (held reader.new)
        (lines_given reader.new) asked.new) }
    ensures through { IfOk result (λ some. some ≡ false
        → IsReadThrough (S.reads (source_of reader.new).now) (held reader.new)) }
    ensures ends { IfErr result (λ ending. (given : ℕ) (before : List ℕ) (first : List SourceRead)
        → AreAsked workers given before first (S.reads (source_of reader.old).now) (held reader.old)
        (lines_given reader.old) asked.old
        → StopsJobs workers given before first (S.reads (source_of reader.new).now) ending) }
    ensures reads { MatchResult result (λ _. NoReadFailed (S.reads (source_of reader.old).now) (S.reads (source_of reader.new).now))
        (FailedReads (S.reads (source_of reader.old).now) (S.reads (source_of reader.new).now)) }
    ensures nearer { IfOk result (λ some. some ≡ true
        → (lines_given reader.old < MAX_LINES) × (lines_given reader.new ≡ lines_given reader.old + 1)) }
    ensures width { vec_len asked.new.lanes ≡ vec_len asked.old.lanes }
    ensures source { (source_of reader.new).ghost_name ≡ (source_of reader.old).ghost_name }
    ensures draws { Draws S.reads S.left (source_of reader.old).now (source_of reader.new).now }
{
    match next_reading(alloc, workers, reader) {
        Reading::End => Ok(false),
        Reading::Fault(fault) => Err(Ending::Stopped(last_of(fault))),
        Reading::Memory => Err(Ending::OutOfMemory),
        Reading::Line(JobLine::Nothing) => Ok(true),
        Reading::Line(JobLine::Bad(fault)) => Err(Ending::Stopped(LastLine::BadScript {
            line: reader.lines_given(),
            fault,
        })),
        Reading::Line(JobLine::Job { worker, step }) => {
            match asked.add(alloc, worker, step, reader.lines_given()) {
                Ok(()) => Ok(true),
                Err(_) => Err(Ending::OutOfMemory),
            }
        }
    }
}

/// Reads the lines behind `split` to the end of the script, each as a job of one of so many workers.
pub fn read_jobs<S: Source>(
    alloc: Global,
    workers: u32,
    reader: &mut LineReader<'_, S>,
) -> Result<Asked, Ending>
    requires few { workers < 256 }
    requires within { lines_given reader.old ≤ MAX_LINES }
    ensures asked { IfOk result (AreAsked workers (lines_given reader.old) (held reader.old)
        (S.reads (source_of reader.old).now) (S.reads (source_of reader.new).now) (held reader.new)
        (lines_given reader.new)) }
    ensures width { IfOk result (λ asked. vec_len asked.lanes ≡ workers) }
    ensures through { OnOk result (IsReadThrough (S.reads (source_of reader.new).now) (held reader.new)) }
    ensures ends { IfErr result (StopsJobs workers (lines_given reader.old) (held reader.old)
        (S.reads (source_of reader.old).now) (S.reads (source_of reader.new).now)) }
    ensures reads { MatchResult result (λ _. NoReadFailed (S.reads (source_of reader.old).now) (S.reads (source_of reader.new).now))
        (FailedReads (S.reads (source_of reader.old).now) (S.reads (source_of reader.new).now)) }
    ensures source { (source_of reader.new).ghost_name ≡ (source_of reader.old).ghost_name }
    ensures draws { Draws S.reads S.left (source_of reader.old).now (source_of reader.new).now }
{
    let Ok(mut asked) = Asked::new(alloc, workers) else {
        return Err(Ending::OutOfMemory);
    };
    'jobs: loop {
        match read_job(alloc, workers, reader, &mut asked) {
            Ok(true) => {}
            Ok(false) => return Ok(asked),
            Err(ending) => return Err(ending),
        }
    }
}
