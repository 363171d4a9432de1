// The lines behind `split` of `work`: each is a job of a worker.
ghost use Rattle.std.specs.Prelude.{◌≡◌, IfOk};
ghost use Rattle.script_grammar.specs.Grammar.{is_passed_over};
ghost use Rattle.script_lang.specs.Jobs.{is_job_verb, job_of, job_reading, job_step_of, split_of, worker_of};
ghost use Rattle.script_lang.specs.Refusal.{ReadsValue};
ghost use Rattle.script_lang.specs.Taken.{seen_word, words_in};

use crate::left::{Word, Words};
use crate::reader::is_passed_over;
use crate::steps::step_by;
use crate::tokens::{Refusal, short_number};
use crate::verbs::{is_word, verb_of};
use script_grammar::{BadKind, BadLine, Step, Verb};
use std::alloc::{AllocError, Global};

/// What a line behind `split` turns out to be.
#[derive(Debug, Drop)]
pub enum JobLine {
    /// A step of this worker, whose number is from 1.
    Job { worker: u32, step: Step },
    /// An empty line, or a comment.
    Nothing,
    Bad(BadLine),
}

/// The worker that a word names.
fn worker(workers: u32, word: Word) -> Result<u32, BadLine>
    ensures { result ≡ worker_of workers (seen_word word.entry) }
{
    let column = word.column;
    let number = short_number(word)?;
    if number == 0 || workers < number {
        return Err(BadLine {
            column,
            kind: BadKind::Number,
        });
    }
    Ok(number)
}

/// Whether a verb's step works on a session.
fn is_job_verb(verb: &Verb) -> bool
    ensures { result ≡ is_job_verb verb.now }
{
    !matches!(
        verb,
        Verb::Format | Verb::Now | Verb::Fail | Verb::StopAfter | Verb::Flip | Verb::Cut
    )
}

/// The step of a job, from the words behind its worker's number.
#[tactic(auto, unfolding(crate::specs::Jobs::job_step_of))]
fn job_step(alloc: Global, words: &mut Words) -> Result<Step, Refusal>
    ensures { ReadsValue (job_step_of words.old.end (words_in words.old)) result }
{
    let first = words.word()?;
    match verb_of(first.bytes) {
        Some(verb) if is_job_verb(&verb) => step_by(alloc, verb, words),
        _ => Err(Refusal::Bad(BadLine {
            column: first.column,
            kind: BadKind::Verb,
        })),
    }
}

/// The worker and the step that a line asks for.
#[tactic(auto, unfolding(crate::specs::Jobs::job_of))]
fn job(alloc: Global, workers: u32, line: &[u8]) -> Result<(u32, Step), Refusal>
    ensures { ReadsValue (job_of workers line.now) result }
{
    let mut words = Words::new(line);
    let first = words.word()?;
    let worker = worker(workers, first)?;
    let step = job_step(alloc, &mut words)?;
    Ok((worker, step))
}

/// Reads one line behind `split`, without its newline, where there are so many workers.
#[tactic(auto, unfolding(crate::specs::Jobs::job_reading))]
pub fn read_job_line(alloc: Global, workers: u32, bytes: &[u8]) -> Result<JobLine, AllocError>
    ensures { IfOk result (λ answer. answer ≡ job_reading workers bytes.now) }
{
    if is_passed_over(bytes) {
        return Ok(JobLine::Nothing);
    }
    match job(alloc, workers, bytes) {
        Ok((worker, step)) => Ok(JobLine::Job { worker, step }),
        Err(Refusal::Bad(fault)) => Ok(JobLine::Bad(fault)),
        Err(Refusal::Memory(error)) => Err(error),
    }
}

/// What comes of a line before the jobs whose first word is `split`: whether that is all of it.
#[tactic(auto, unfolding(crate::specs::Jobs::split_of))]
pub fn read_split(bytes: &[u8]) -> Option<Result<(), BadLine>>
    ensures { result ≡ split_of bytes.now }
{
    let mut words = Words::new(bytes);
    match words.word() {
        Ok(first) if is_word(first.bytes, b"split") => Some(words.end()),
        _ => None,
    }
}
