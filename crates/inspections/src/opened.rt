// A check of a device: what it opens to.
ghost use Rattle.std.specs.Prelude.{◌≡◌, ◌++◌, true, IfErr, IfOk, OnOk, string_bytes};
ghost use Rattle.device_opening.specs.Copies.{TakenSays};
ghost use Rattle.device_opening.specs.Opening.{opening_read};
ghost use Rattle.inspections.specs.Check.{SaysOpening, FailsOnce, ReadsOnce, dropped_line, opened_line, stop_of};

use crate::device::Inspection;
use crate::lines::clean_text;
use device_opening::{OpeningFault, OpeningRead, read_opening};
use device_reads::ReadFault;
use logged_disk::Disk;
use reopening::bound_of;
use std::alloc::{AllocError, Global};

#[tactic(auto, unfolding(crate::specs::Check::opened_line))]
fn opened_line(alloc: Global, read: &OpeningRead) -> Result<String, AllocError>
    requires says { TakenSays read.now.area read.now.taken }
    ensures { IfOk result (λ text. string_bytes text ≡ opened_line (opening_read read.now)) }
{
    let told = &read.taken.newest.told;
    let serial = told.serial;
    let cursor = told.cursor;
    let floor = bound_of(&read.area.geometry, told);
    let found = read.found.len();
    let clean = clean_text(told.clean);
    format!(in alloc; "opened serial {serial} cursor {cursor} floor {floor} found {found}{clean}\n")
}

#[tactic(auto, unfolding(crate::specs::Check::dropped_line))]
fn dropped_line(alloc: Global, dropped: u64) -> Result<String, AllocError>
    ensures { IfOk result (λ text. string_bytes text ≡ dropped_line dropped) }
{
    format!(in alloc; "dropped {dropped}\n")
}

// What a check says of what opens.
fn said_of(alloc: Global, read: &OpeningRead) -> Result<Inspection, AllocError>
    requires says { TakenSays read.now.area read.now.taken }
    ensures text { IfOk result (λ said. string_bytes said.text ≡ opened_line (opening_read read.now) ++ dropped_line read.now.dropped) }
    ensures opens { IfOk result (λ said. said.opens ≡ true) }
{
    let opened = opened_line(alloc, read)?;
    let dropped = dropped_line(alloc, read.dropped)?;
    Ok(Inspection {
        text: format!(in alloc; "{opened}{dropped}")?,
        opens: true,
    })
}

// Why a device was not read to the end, where that is why it did not open.
fn stop_of(fault: OpeningFault) -> Option<ReadFault>
    ensures { result ≡ stop_of fault }
{
    match fault {
        OpeningFault::DeviceFault { count } => Some(ReadFault::DeviceFault { count }),
        OpeningFault::Memory(e) => Some(ReadFault::Memory(e)),
        _ => None,
    }
}

/// Checks what a device opens to. It is read alone, each block of it at most once.
pub fn check<D: Disk>(alloc: Global, disk: &mut D) -> Result<Inspection, ReadFault>
    // Whatever image its reads agree with, this is what a check of that image says.
    ensures says { IfOk result (λ said. let size = (D.state disk.old).size in
        ReadsOnce (D.state disk.old) (D.state disk.new) (λ c. SaysOpening size c (string_bytes said.text) said.opens)) }
    ensures unrefused { OnOk result ((D.state disk.new).faults ≡ (D.state disk.old).faults) }
    ensures fails { IfErr result (FailsOnce (D.state disk.old) (D.state disk.new)) }
{
    let fault = match read_opening(alloc, disk) {
        Ok(read) => return Ok(said_of(alloc, &read)?),
        Err(fault) => fault,
    };
    match stop_of(fault) {
        Some(stop) => Err(stop),
        None => Ok(Inspection {
            text: String::new(alloc),
            opens: false,
        }),
    }
}
