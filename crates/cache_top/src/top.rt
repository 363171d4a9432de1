// The top call: words, a script, and what came of it.
ghost use Rattle.std.specs.Prelude.{◌≡◌, ◌⊎◌, [], length};
ghost use Rattle.edge_io.specs.Source.{Draws};
ghost use Rattle.edge_io.specs.Sink.{Grows};
ghost use Rattle.device_bay.specs.Calls.{IsBayLog, gifts_of, out_of, refusals_of, returned_by};
ghost use Rattle.script_run.specs.Ledger.{InOrder, ledger_of};
ghost use Rattle.run_promise.specs.Story.{refusals_around};
ghost use Rattle.run_promise.specs.Top.{ReadsFailed, ComeBackSteady};
ghost use Rattle.command_words.specs.Words.{asked_in_words};
ghost use Rattle.run_script.specs.Commands.{RefusesAs};
ghost use Rattle.work_script.specs.Commands.{ConcludesAll, IsUsageOf};

use cache_chronicle::FullChronicle;
use device_bay::Bay;
use edge_io::{Sink, Source};
use logged_disk::PowerDisk;
use packed_directory::PackedDirectory;
use run_promise::Status;
use std::alloc::Global;
use std::sync::Wait;
use std::thread::Threads;
use stripe_calls::StripeCache;
use work_script::run_words;

/// The cache of the program: its directory has packed entries, and its chronicle forgets nothing.
pub type Cache<D> = StripeCache<D, PackedDirectory, FullChronicle>;

/// Runs the command that the words give, by the cache of the program: `replay` runs the script that the source holds,
/// `work` has its jobs done by workers in threads, and `inspect` and `check` read a device.
pub fn cache_main<
    S: Source,
    K: Sink,
    D: PowerDisk + Send,
    B: Bay<Dev = D>,
    H: Threads + Wait + Sync,
>(rt: &H, alloc: Global, words: &[String], source: &mut S, sink: &mut K, bay: &mut B) -> Status
    ensures concludes { ConcludesAll (asked_in_words words.now) (S.reads source.old) (S.reads source.new) (K.writes sink.old) (K.writes sink.new)
        (refusals_around (refusals_of (B.past bay.old)) (refusals_of (B.past bay.new))) (ledger_of B.Bay bay.old) (ledger_of B.Bay bay.new) result }
    ensures usage { IsUsageOf (asked_in_words words.now) result }
    ensures reads { ReadsFailed (S.reads source.old) (S.reads source.new) result }

    // Every device was given back.
    ensures out { out_of (B.past bay.new) ≡ out_of (B.past bay.old) }

    ensures source { Draws S.reads S.left source.old source.new }
    ensures sink { Grows (K.writes sink.old) (K.writes sink.new) }

    // They came back in the order in which they were attached, each as a whole.
    ensures order { InOrder (length (gifts_of (B.past bay.old))) [] (B.past bay.old) (B.past bay.new) }

    // Each that came back has a log that a device can have, with as many faults as calls that failed.
    ensures log { IsBayLog (B.past bay.new) }

    // No attach was refused but the one that ended the run, if one did.
    ensures refusals { RefusesAs (asked_in_words words.now) (refusals_of (B.past bay.old)) (refusals_of (B.past bay.new)) result }

    // Each device that has a switch which was told nothing, and of which no bit was turned, refused nothing and told its content to
    // the end.
    ensures steady { ComeBackSteady (returned_by (B.past bay.old)) (returned_by (B.past bay.new)) }
{
    run_words::<S, K, B, _, _, Cache<D>, H>(rt, alloc, words, source, sink, bay)
}
