// The lines of turns.
ghost use Rattle.std.specs.Prelude.{◌≡◌, ◌+◌, ◌++◌, ◌<◌, ◌≤◌, ℕ, [], true, IfOk, OnOk, IfErr, string_bytes, length};
ghost use Rattle.edge_io.specs.Sink.{Grows};
ghost use Rattle.script_grammar.specs.Texts.{answer_line};
ghost use Rattle.run_promise.specs.Story.{SendsFront, SinkTook};
ghost use Rattle.work_script.specs.Turns.{AreSaid, turn_head, turns_in};
ghost use Rattle.work_script.specs.Printing.{PrintsTurns, WritesText};

use cache_replay::Stop;
use edge_io::Sink;
use run_script::Ending;
use script_grammar::StepAnswer;
use script_lang::answer_text;
use shared_session::JobStep;
use shared_steps::{StepRow, Taken};
use std::alloc::{AllocError, Global};

/// A turn of a worker that took a step, and what came of it.
pub(crate) type Row = StepRow<JobStep, StepAnswer, Stop>;

#[tactic(auto, unfolding(crate::specs::Turns::turn_head))]
fn turn_head(alloc: Global, number: u64, worker: u64, job: u64) -> Result<String, AllocError>
    ensures { IfOk result (λ text. string_bytes text ≡ turn_head number worker job) }
{
    format!(in alloc; "turn {number} worker {worker} job {job} ")
}

/// Writes a line behind what stands in `out`.
fn turn_text(
    alloc: Global,
    number: u64,
    worker: u64,
    job: u64,
    said: &StepAnswer,
    out: &mut Vec<u8>,
) -> Result<(), AllocError>
    ensures { OnOk result (out.new.items
        ≡ out.old.items ++ (turn_head number worker job ++ answer_line said.now)) }
{
    let head = turn_head(alloc, number, worker, job)?;
    out.extend_from_slice(head.as_bytes())?;
    answer_text(said, out)
}

/// Writes the line of a turn out. Workers are counted from 0 in a row, and from 1 in its line.
fn write_turn<K: Sink>(
    alloc: Global,
    sink: &mut K,
    number: u64,
    worker: u32,
    job: u64,
    said: &StepAnswer,
) -> Result<(), Ending>
    ensures writes { WritesText (K.writes sink.old) (K.writes sink.new)
        (turn_head number (worker + 1) job ++ answer_line said.now) result }
    ensures grows { Grows (K.writes sink.old) (K.writes sink.new) }
{
    let mut text = Vec::new(alloc);
    let worker = u64::from(worker) + 1;
    let Ok(()) = turn_text(alloc, number, worker, job, said, &mut text) else {
        return Err(Ending::OutOfMemory);
    };
    match sink.write_all(&text) {
        Ok(()) => Ok(()),
        Err(_) => Err(Ending::WriteFault),
    }
}

/// Writes the lines of turns out, in their order.
pub(crate) fn print_turns<K: Sink>(alloc: Global, sink: &mut K, rows: &[Row]) -> Result<(), Ending>
    requires said { AreSaid rows.now }
    ensures prints { PrintsTurns (K.writes sink.old) (K.writes sink.new) (turns_in rows.now) result }
    ensures grows { Grows (K.writes sink.old) (K.writes sink.new) }
{
    for place in 0..rows.len() {
        let row = &rows[place];
        let number = place as u64 + 1;
        let Taken::Said(said) = &row.taken else {
            unreachable!()
        };
        match write_turn(alloc, sink, number, row.worker, row.job, said) {
            Ok(()) => {}
            Err(ending) => return Err(ending),
        }
    }
    Ok(())
}

/// Whether each turn was answered.
pub(crate) fn are_said(rows: &[Row]) -> bool
    ensures { result ≡ true → AreSaid rows.now }
{
    for place in 0..rows.len() {
        let Taken::Said(_) = &rows[place].taken else {
            return false;
        };
    }
    true
}
