// The command that words give, where workers may run.
ghost use Rattle.std.specs.Prelude.{◌≡◌, [], length, option_map, IfSome};
ghost use Rattle.edge_io.specs.Source.{Draws};
ghost use Rattle.edge_io.specs.Sink.{Grows};
ghost use Rattle.device_bay.specs.Calls.{IsBayLog, gifts_of, out_of, refusals_of, returned_by};
ghost use Rattle.script_run.specs.Ledger.{InOrder, ledger_of};
ghost use Rattle.run_promise.specs.Story.{refusals_around};
ghost use Rattle.run_promise.specs.Top.{ComeBackSteady, ReadsFailed};
ghost use Rattle.command_words.specs.Words.{HasFewWorkers, asked_in_words, wish_of};
ghost use Rattle.run_script.specs.Commands.{RefusesAs};
ghost use Rattle.work_script.specs.Commands.{ConcludesAll, IsUsageOf};

use crate::work::run_work;
use cache_calls::{Formats, Powered};
use command_words::{Command, read_words};
use device_bay::Bay;
use edge_io::{Sink, Source};
use lock_workers::Open;
use run_promise::Status;
use run_script::run_command;
use std::alloc::Global;
use std::sync::Wait;
use std::thread::Threads;

/// Runs a command, or says that there is none.
fn run_asked<
    S: Source,
    K: Sink,
    B: Bay,
    V: Drop + Send,
    R: Drop + Send,
    C: Formats<B::Dev, Writer = V, Reader = R> + Powered + Send,
    H: Threads + Wait + Sync,
>(
    rt: &H,
    alloc: Global,
    command: Option<Command<'_>>,
    source: &mut S,
    sink: &mut K,
    bay: &mut B,
) -> Status
    requires few { IfSome command HasFewWorkers }
    ensures concludes { ConcludesAll (option_map wish_of command.entry) (S.reads source.old) (S.reads source.new) (K.writes sink.old) (K.writes sink.new)
        (refusals_around (refusals_of (B.past bay.old)) (refusals_of (B.past bay.new))) (ledger_of B.Bay bay.old) (ledger_of B.Bay bay.new) result }
    ensures usage { IsUsageOf (option_map wish_of command.entry) result }
    ensures reads { ReadsFailed (S.reads source.old) (S.reads source.new) result }
    ensures out { out_of (B.past bay.new) ≡ out_of (B.past bay.old) }
    ensures source { Draws S.reads S.left source.old source.new }
    ensures sink { Grows (K.writes sink.old) (K.writes sink.new) }
    ensures order { InOrder (length (gifts_of (B.past bay.old))) [] (B.past bay.old) (B.past bay.new) }
    ensures refusals { RefusesAs (option_map wish_of command.entry) (refusals_of (B.past bay.old)) (refusals_of (B.past bay.new)) result }
    ensures steady { ComeBackSteady (returned_by (B.past bay.old)) (returned_by (B.past bay.new)) }
{
    match command {
        Some(Command::Work { workers }) => {
            run_work::<S, K, B, V, R, C, H, Open>(rt, alloc, workers, source, sink, bay, &Open)
        }
        other => run_command::<S, K, B, C>(alloc, other, source, sink, bay),
    }
}

/// Runs the command that the words give, by a cache of the type `C`: `work` shares it among workers,
/// and all others are as in `run_script`.
pub fn run_words<
    S: Source,
    K: Sink,
    B: Bay,
    V: Drop + Send,
    R: Drop + Send,
    C: Formats<B::Dev, Writer = V, Reader = R> + Powered + Send,
    H: Threads + Wait + Sync,
>(rt: &H, alloc: Global, words: &[String], source: &mut S, sink: &mut K, bay: &mut B) -> Status
    ensures concludes { ConcludesAll (asked_in_words words.now) (S.reads source.old) (S.reads source.new) (K.writes sink.old) (K.writes sink.new)
        (refusals_around (refusals_of (B.past bay.old)) (refusals_of (B.past bay.new))) (ledger_of B.Bay bay.old) (ledger_of B.Bay bay.new) result }
    ensures usage { IsUsageOf (asked_in_words words.now) result }
    ensures reads { ReadsFailed (S.reads source.old) (S.reads source.new) result }

    // Every device was given back.
    ensures out { out_of (B.past bay.new) ≡ out_of (B.past bay.old) }

    ensures source { Draws S.reads S.left source.old source.new }
    ensures sink { Grows (K.writes sink.old) (K.writes sink.new) }

    // They came back in the order in which they were attached, each as a whole.
    ensures order { InOrder (length (gifts_of (B.past bay.old))) [] (B.past bay.old) (B.past bay.new) }

    // Each that came back has a log that a device can have, with as many faults as calls that failed.
    ensures log { IsBayLog (B.past bay.new) }

    // No attach was refused but the one that ended the run, if one did.
    ensures refusals { RefusesAs (asked_in_words words.now) (refusals_of (B.past bay.old)) (refusals_of (B.past bay.new)) result }

    // Each device whose switch was told nothing, and of which no bit was turned, refused nothing and told its content to the end.
    ensures steady { ComeBackSteady (returned_by (B.past bay.old)) (returned_by (B.past bay.new)) }
{
    match read_words(alloc, words) {
        Ok(command) => run_asked::<S, K, B, V, R, C, H>(rt, alloc, command, source, sink, bay),
        Err(_) => Status::OutOfMemory,
    }
}
