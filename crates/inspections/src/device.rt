// An inspection of a device.
ghost use Rattle.std.specs.Prelude.{◌≡◌, ◌≤◌, IfErr, IfOk, OnOk, string_bytes};
ghost use Rattle.inspections.specs.Head.{IsLaid};
ghost use Rattle.inspections.specs.Inspect.{IsInspected, Says};
ghost use Rattle.device_reads.specs.Reads.{Fails, Reads};

use crate::copies::{read_gates, read_side};
use crate::head::{Head, read_head};
use crate::lines::said_of;
use device_reads::ReadFault;
use logged_disk::Disk;
use std::alloc::Global;
use stripe_header::Side;

/// What an inspection says of a device.
#[derive(Debug, Drop)]
pub struct Inspection {
    /// The lines that it prints.
    pub text: String,
    /// Whether what stands there opens.
    pub opens: bool,
}

// Inspects the stripe that lies on a device.
fn inspect_stripe<D: Disk>(
    alloc: Global,
    disk: &mut D,
    head: &Head,
) -> Result<Inspection, ReadFault>
    requires laid { IsLaid (D.state disk.old).size head.now.area }
    ensures says { IfOk result (λ said. Reads 1 (D.state disk.old).size 3 (D.state disk.old) (D.state disk.new)
        (IsInspected head.now said)) }
    ensures unrefused { OnOk result ((D.state disk.new).faults ≡ (D.state disk.old).faults) }
    ensures fails { IfErr result (Fails 1 (D.state disk.old).size 3 (D.state disk.old) (D.state disk.new)) }
{
    let gates = read_gates(disk)?;
    let a = read_side(alloc, disk, &head.area, Side::A, &gates.a)?;
    let b = read_side(alloc, disk, &head.area, Side::B, &gates.b)?;
    Ok(said_of(alloc, head.version, &head.area, &a, &b)?)
}

/// Inspects a device. It is read alone, each block of it at most once.
pub fn inspect<D: Disk>(alloc: Global, disk: &mut D) -> Result<Inspection, ReadFault>
    // Whatever image its reads agree with, this is what an inspection of that image says.
    ensures says { IfOk result (λ said. let size = (D.state disk.old).size in
        Reads 0 size 4 (D.state disk.old) (D.state disk.new) (λ c. Says size c (string_bytes said.text) said.opens)) }
    ensures unrefused { OnOk result ((D.state disk.new).faults ≡ (D.state disk.old).faults) }
    ensures fails { IfErr result (Fails 0 (D.state disk.old).size 4 (D.state disk.old) (D.state disk.new)) }
{
    match read_head(disk)? {
        None => Ok(Inspection {
            text: String::new(alloc),
            opens: false,
        }),
        Some(head) => inspect_stripe(alloc, disk, &head),
    }
}
