// The newest copy of the stripe that lies on a device.
ghost use Rattle.std.specs.Prelude.{◌≡◌, IfErr, IfOk};
ghost use Rattle.stripe_header.specs.Layout.{content_of};
ghost use Rattle.device_opening.specs.Copies.{IsChosen, IsLaid, IsNewestRead, TakenSays};
ghost use Rattle.device_opening.specs.Faults.{IsFaultIn, IsFaultOf, WhereRead};
ghost use Rattle.device_reads.specs.Reads.{Reads};

use crate::copies::read_copies;
use crate::fault::OpeningFault;
use crate::newest::{Chosen, choose};
use crate::span::read_area;
use logged_disk::Disk;
use std::alloc::Global;
use stripe_header::Area;

/// The stripe that lies on a device, and the copy of its directory that an opening takes.
#[derive(Debug, Drop)]
pub struct NewestRead {
    pub area: Area,
    pub chosen: Chosen,
}

// Reads the newest copy of a stripe.
fn read_chosen<D: Disk>(alloc: Global, disk: &mut D, area: &Area) -> Result<Chosen, OpeningFault>
    requires laid { IsLaid (D.state disk.old).size area.now }
    ensures chosen { IfOk result (λ chosen. Reads 1 (content_of area.now) 3 (D.state disk.old) (D.state disk.new)
        (λ c. IsChosen area.now c chosen)) }
    ensures says { IfOk result (λ chosen. TakenSays area.now chosen.taken) }
    ensures unrefused { WhereRead result ((D.state disk.new).faults ≡ (D.state disk.old).faults) }
    ensures fault { IfErr result (IsFaultIn area.now (D.state disk.old) (D.state disk.new)) }
{
    let copies = read_copies(alloc, disk, area)?;
    Ok(choose(alloc, area, copies)?)
}

/// Reads the newest copy of the stripe that lies on a device. It is read alone, each block of it at most once.
pub fn read_newest<D: Disk>(alloc: Global, disk: &mut D) -> Result<NewestRead, OpeningFault>
    // Whatever image its reads agree with, this is the stripe that lies there, and its newest copy.
    ensures newest { IfOk result (λ r. let size = (D.state disk.old).size in
        Reads 0 (content_of r.area) 4 (D.state disk.old) (D.state disk.new) (IsNewestRead size r)) }
    ensures laid { IfOk result (λ r. IsLaid (D.state disk.old).size r.area) }
    ensures says { IfOk result (λ r. TakenSays r.area r.chosen.taken) }
    ensures unrefused { WhereRead result ((D.state disk.new).faults ≡ (D.state disk.old).faults) }
    ensures fault { IfErr result (IsFaultOf (D.state disk.old) (D.state disk.new)) }
{
    let area = match read_area(disk)? {
        Ok(area) => area,
        Err(fault) => return Err(OpeningFault::BadSpan(fault)),
    };
    let chosen = read_chosen(alloc, disk, &area)?;
    Ok(NewestRead { area, chosen })
}
