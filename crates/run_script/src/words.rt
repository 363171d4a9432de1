// The command that words give, over any cache: a script, and what came of it.
ghost use Rattle.std.specs.Prelude.{◌≡◌, ◌≢◌, ◌⊎◌, false, [], length, option_map};
ghost use Rattle.edge_io.specs.Source.{Draws};
ghost use Rattle.edge_io.specs.Sink.{Grows};
ghost use Rattle.device_bay.specs.Calls.{IsBayLog, gifts_of, out_of, refusals_of, returned_by};
ghost use Rattle.script_grammar.specs.Texts.{last_line};
ghost use Rattle.script_run.specs.Ledger.{InOrder, ledger_of};
ghost use Rattle.cache_replay.specs.Stop.{RefusesNone};
ghost use Rattle.run_promise.specs.Story.{refusals_around};
ghost use Rattle.command_words.specs.Words.{asked_in_words, wish_of};
ghost use Rattle.run_script.specs.Commands.{ConcludesAs, IsUsageBy, PrintsText, RefusesAs};
ghost use Rattle.run_script.specs.Ending.{EndsRun, FailedReads, IsOfRun, is_bay_ending};
ghost use Rattle.run_promise.specs.Top.{WentOut, EachBack, EachBackOrMore, ReadsFailed, status_of, AttachesRefused, ComeBackSteady, Concludes};

use crate::inspect::{check_named, inspect_named};
use crate::run::{Ending, run_lines};
use cache_calls::{Formats, Powered};
use cache_replay::{Replay, begin, close};
use command_words::{Command, help_text, read_words, version_text};
use device_bay::Bay;
use edge_io::{LineBuffer, LineReader, Sink, Source};
use run_promise::Status;
use script_grammar::LastLine;
use script_lang::{last_line_text, usage_text};
use std::alloc::Global;

fn status_of(last: LastLine) -> Status
    ensures { result ≡ status_of last }
{
    match last {
        LastLine::Usage => Status::Usage,
        LastLine::BadScript { .. } => Status::BadScript,
        LastLine::ReadFault => Status::ReadFault,
        LastLine::BayFault => Status::BayFault,
        LastLine::LineTooLong { .. } => Status::LineTooLong,
        LastLine::TooManyLines => Status::TooManyLines,
        LastLine::NoCache { .. } => Status::NoCache,
    }
}

/// Writes bytes out; a fault in the last line of a run does not change its status.
pub(crate) fn send<K: Sink>(sink: &mut K, text: &str)
    ensures out { WentOut (K.writes sink.old) (K.writes sink.new) [] text.now }
    ensures grows { Grows (K.writes sink.old) (K.writes sink.new) }
{
    let _ = sink.write_all(text.as_bytes());
}

/// Writes the last line of a run that ends early.
pub fn conclude<K: Sink>(alloc: Global, sink: &mut K, last: LastLine) -> Status
    ensures said { ((result ≡ Status.OutOfMemory) × (K.writes sink.new ≡ K.writes sink.old))
        ⊎ ((result ≡ status_of last) × WentOut (K.writes sink.old) (K.writes sink.new) [] (last_line last)) }
    ensures grows { Grows (K.writes sink.old) (K.writes sink.new) }
{
    match last_line_text(alloc, last) {
        Ok(text) => {
            send(sink, text.as_str());
            status_of(last)
        }
        Err(_) => Status::OutOfMemory,
    }
}

/// Prints a text of the program itself.
fn print<K: Sink>(sink: &mut K, text: &str) -> Status
    ensures prints { PrintsText (K.writes sink.old) (K.writes sink.new) text.now result }
    ensures grows { Grows (K.writes sink.old) (K.writes sink.new) }
{
    match sink.write_all(text.as_bytes()) {
        Ok(()) => Status::Done,
        Err(_) => Status::WriteFault,
    }
}

/// Says that words are no command.
fn refuse<K: Sink>(sink: &mut K) -> Status
    ensures usage { result ≡ Status.Usage }
    ensures out { WentOut (K.writes sink.old) (K.writes sink.new) [] (last_line LastLine.Usage) }
    ensures grows { Grows (K.writes sink.old) (K.writes sink.new) }
{
    send(sink, usage_text());
    Status::Usage
}

/// Runs a script.
fn replay<S: Source, K: Sink, B: Bay, C: Formats<B::Dev> + Powered>(
    alloc: Global,
    source: &mut S,
    sink: &mut K,
    bay: &mut B,
) -> Ending
    ensures ends { EndsRun (S.reads source.old) (S.reads source.new) (K.writes sink.old) (K.writes sink.new) (refusals_around (refusals_of (B.past bay.old)) (refusals_of (B.past bay.new)))
        (EachBack (ledger_of B.Bay bay.old) (ledger_of B.Bay bay.new)) (EachBackOrMore (ledger_of B.Bay bay.old) (ledger_of B.Bay bay.new)) result }
    ensures begun { IsOfRun result }
    ensures reads { FailedReads (S.reads source.old) (S.reads source.new) result }
    ensures out { out_of (B.past bay.new) ≡ out_of (B.past bay.old) }
    ensures source { Draws S.reads S.left source.old source.new }
    ensures sink { Grows (K.writes sink.old) (K.writes sink.new) }
    ensures order { InOrder (length (gifts_of (B.past bay.old))) [] (B.past bay.old) (B.past bay.new) }
    ensures refusals { is_bay_ending result ≡ false → RefusesNone (B.past bay.old) (B.past bay.new) }
    ensures steady { ComeBackSteady (returned_by (B.past bay.old)) (returned_by (B.past bay.new)) }
{
    let Ok(buffer) = LineBuffer::new(alloc) else {
        return Ending::OutOfMemory;
    };
    let mut reader = LineReader::with_buffer(source, buffer);
    let mut replay: Replay<B::Dev, C> = begin(alloc);
    let ending = run_lines(alloc, &mut reader, sink, bay, &mut replay);
    let _source = reader.into_source();
    close(replay, bay);
    ending
}

/// Runs the script that the source holds, and writes its last line where it ends early.
fn replay_through<S: Source, K: Sink, B: Bay, C: Formats<B::Dev> + Powered>(
    alloc: Global,
    source: &mut S,
    sink: &mut K,
    bay: &mut B,
) -> Status
    ensures concludes { Concludes (S.reads source.old) (S.reads source.new) (K.writes sink.old) (K.writes sink.new) (refusals_around (refusals_of (B.past bay.old)) (refusals_of (B.past bay.new)))
        (ledger_of B.Bay bay.old) (ledger_of B.Bay bay.new) result }
    ensures begun { result ≢ Status.Usage }
    ensures reads { ReadsFailed (S.reads source.old) (S.reads source.new) result }
    ensures out { out_of (B.past bay.new) ≡ out_of (B.past bay.old) }
    ensures source { Draws S.reads S.left source.old source.new }
    ensures sink { Grows (K.writes sink.old) (K.writes sink.new) }
    ensures order { InOrder (length (gifts_of (B.past bay.old))) [] (B.past bay.old) (B.past bay.new) }
    ensures refusals { AttachesRefused (refusals_of (B.past bay.old)) (refusals_of (B.past bay.new)) result }
    ensures steady { ComeBackSteady (returned_by (B.past bay.old)) (returned_by (B.past bay.new)) }
{
    match replay::<S, K, B, C>(alloc, source, sink, bay) {
        Ending::Done => Status::Done,
        Ending::Stopped(last) => conclude(alloc, sink, last),
        Ending::WriteFault => Status::WriteFault,
        Ending::OutOfMemory => Status::OutOfMemory,
    }
}

/// Runs a command, or says that there is none.
pub fn run_command<S: Source, K: Sink, B: Bay, C: Formats<B::Dev> + Powered>(
    alloc: Global,
    command: Option<Command<'_>>,
    source: &mut S,
    sink: &mut K,
    bay: &mut B,
) -> Status
    ensures concludes { ConcludesAs (option_map wish_of command.entry) (S.reads source.old) (S.reads source.new) (K.writes sink.old) (K.writes sink.new)
        (refusals_around (refusals_of (B.past bay.old)) (refusals_of (B.past bay.new))) (ledger_of B.Bay bay.old) (ledger_of B.Bay bay.new) result }
    ensures usage { IsUsageBy (option_map wish_of command.entry) result }
    ensures reads { ReadsFailed (S.reads source.old) (S.reads source.new) result }
    ensures out { out_of (B.past bay.new) ≡ out_of (B.past bay.old) }
    ensures source { Draws S.reads S.left source.old source.new }
    ensures sink { Grows (K.writes sink.old) (K.writes sink.new) }
    ensures order { InOrder (length (gifts_of (B.past bay.old))) [] (B.past bay.old) (B.past bay.new) }
    ensures refusals { RefusesAs (option_map wish_of command.entry) (refusals_of (B.past bay.old)) (refusals_of (B.past bay.new)) result }
    ensures steady { ComeBackSteady (returned_by (B.past bay.old)) (returned_by (B.past bay.new)) }
{
    match command {
        Some(Command::Help) => print(sink, help_text()),
        Some(Command::Version) => print(sink, version_text()),
        Some(Command::Replay) => replay_through::<S, K, B, C>(alloc, source, sink, bay),
        Some(Command::Inspect { name }) => inspect_named(alloc, name, sink, bay),
        Some(Command::Check { name }) => check_named(alloc, name, sink, bay),
        Some(Command::Work { .. }) | None => refuse(sink),
    }
}

/// Runs the command that the words give, by a cache of the type `C`: `replay` runs the script that the source holds,
/// and `inspect` and `check` read a device.
pub fn run_words<S: Source, K: Sink, B: Bay, C: Formats<B::Dev> + Powered>(
    alloc: Global,
    words: &[String],
    source: &mut S,
    sink: &mut K,
    bay: &mut B,
) -> Status
    ensures concludes { ConcludesAs (asked_in_words words.now) (S.reads source.old) (S.reads source.new) (K.writes sink.old) (K.writes sink.new)
        (refusals_around (refusals_of (B.past bay.old)) (refusals_of (B.past bay.new))) (ledger_of B.Bay bay.old) (ledger_of B.Bay bay.new) result }
    ensures usage { IsUsageBy (asked_in_words words.now) result }
    ensures reads { ReadsFailed (S.reads source.old) (S.reads source.new) result }

    // Every device was given back.
    ensures out { out_of (B.past bay.new) ≡ out_of (B.past bay.old) }

    ensures source { Draws S.reads S.left source.old source.new }
    ensures sink { Grows (K.writes sink.old) (K.writes sink.new) }

    // They came back in the order in which they were attached, each as a whole.
    ensures order { InOrder (length (gifts_of (B.past bay.old))) [] (B.past bay.old) (B.past bay.new) }

    // Each that came back has a log that a device can have, with as many faults as calls that failed.
    ensures log { IsBayLog (B.past bay.new) }

    // No attach was refused but the one that ended the run, if one did.
    ensures refusals { RefusesAs (asked_in_words words.now) (refusals_of (B.past bay.old)) (refusals_of (B.past bay.new)) result }

    // No switch was told anything, so each device that has one refused nothing and told its content to the end.
    ensures steady { ComeBackSteady (returned_by (B.past bay.old)) (returned_by (B.past bay.new)) }
{
    match read_words(alloc, words) {
        Ok(command) => run_command::<S, K, B, C>(alloc, command, source, sink, bay),
        Err(_) => Status::OutOfMemory,
    }
}
