// The inspection of a device that a bay gives, and its check.
ghost use Rattle.std.specs.Prelude.{◌≡◌, ◌≢◌, [], length, string_bytes};
ghost use Rattle.edge_io.specs.Sink.{Grows};
ghost use Rattle.device_bay.specs.Calls.{gifts_of, out_of, refusals_of, returned_by};
ghost use Rattle.script_run.specs.Ledger.{InOrder, ledger_of};
ghost use Rattle.run_promise.specs.Story.{refusals_around};
ghost use Rattle.run_promise.specs.Top.{ComeBackSteady};
ghost use Rattle.run_script.specs.Commands.{RefusesLook};
ghost use Rattle.run_script.specs.Inspects.{Checks, Inspects, PrintsLines, PrintsSaid};

use crate::words::{conclude, send};
use device_bay::{Bay, BayFault};
use device_reads::ReadFault;
use edge_io::Sink;
use inspections::{Inspection, check, inspect, nothing_text};
use run_promise::Status;
use script_grammar::LastLine;
use std::alloc::Global;

/// Writes the lines of an inspection out, and the last line where nothing opens.
fn print_lines<K: Sink>(sink: &mut K, said: &Inspection) -> Status
    ensures out { PrintsLines (string_bytes said.now.text) said.now.opens (K.writes sink.old) (K.writes sink.new) result }
    ensures grows { Grows (K.writes sink.old) (K.writes sink.new) }
{
    let Ok(()) = sink.write_all(said.text.as_bytes()) else {
        return Status::WriteFault;
    };
    if said.opens {
        return Status::Done;
    }
    send(sink, nothing_text());
    Status::NoCache
}

/// Writes out what came of an inspection.
fn print_inspection<K: Sink>(
    alloc: Global,
    sink: &mut K,
    said: Result<Inspection, ReadFault>,
) -> Status
    ensures out { PrintsSaid said (K.writes sink.old) (K.writes sink.new) result }
    ensures grows { Grows (K.writes sink.old) (K.writes sink.new) }
{
    match said {
        Ok(said) => print_lines(sink, &said),
        Err(ReadFault::DeviceFault { .. }) => conclude(alloc, sink, LastLine::BayFault),
        Err(ReadFault::Memory(_)) => Status::OutOfMemory,
    }
}

/// Inspects the device of that name, at its own size.
pub(crate) fn inspect_named<K: Sink, B: Bay>(
    alloc: Global,
    name: &str,
    sink: &mut K,
    bay: &mut B,
) -> Status
    ensures concludes { Inspects name.now (K.writes sink.old) (K.writes sink.new)
        (refusals_around (refusals_of (B.past bay.old)) (refusals_of (B.past bay.new))) (ledger_of B.Bay bay.old) (ledger_of B.Bay bay.new) result }
    ensures begun { result ≢ Status.Usage }
    ensures out { out_of (B.past bay.new) ≡ out_of (B.past bay.old) }
    ensures sink { Grows (K.writes sink.old) (K.writes sink.new) }
    ensures order { InOrder (length (gifts_of (B.past bay.old))) [] (B.past bay.old) (B.past bay.new) }
    ensures refusals { RefusesLook (refusals_of (B.past bay.old)) (refusals_of (B.past bay.new)) result }
    ensures steady { ComeBackSteady (returned_by (B.past bay.old)) (returned_by (B.past bay.new)) }
{
    let mut device = match bay.attach(alloc, name.as_bytes(), 0) {
        Ok(device) => device,
        Err(BayFault::Failed { .. }) => return conclude(alloc, sink, LastLine::BayFault),
        Err(BayFault::Memory(_)) => return Status::OutOfMemory,
    };
    let said = inspect(alloc, &mut device);
    bay.give_back(device);
    print_inspection(alloc, sink, said)
}

/// Checks what the device of that name opens to, at its own size.
pub(crate) fn check_named<K: Sink, B: Bay>(
    alloc: Global,
    name: &str,
    sink: &mut K,
    bay: &mut B,
) -> Status
    ensures concludes { Checks name.now (K.writes sink.old) (K.writes sink.new)
        (refusals_around (refusals_of (B.past bay.old)) (refusals_of (B.past bay.new))) (ledger_of B.Bay bay.old) (ledger_of B.Bay bay.new) result }
    ensures begun { result ≢ Status.Usage }
    ensures out { out_of (B.past bay.new) ≡ out_of (B.past bay.old) }
    ensures sink { Grows (K.writes sink.old) (K.writes sink.new) }
    ensures order { InOrder (length (gifts_of (B.past bay.old))) [] (B.past bay.old) (B.past bay.new) }
    ensures refusals { RefusesLook (refusals_of (B.past bay.old)) (refusals_of (B.past bay.new)) result }
    ensures steady { ComeBackSteady (returned_by (B.past bay.old)) (returned_by (B.past bay.new)) }
{
    let mut device = match bay.attach(alloc, name.as_bytes(), 0) {
        Ok(device) => device,
        Err(BayFault::Failed { .. }) => return conclude(alloc, sink, LastLine::BayFault),
        Err(BayFault::Memory(_)) => return Status::OutOfMemory,
    };
    let said = check(alloc, &mut device);
    bay.give_back(device);
    print_inspection(alloc, sink, said)
}
