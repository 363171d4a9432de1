// A buffer whose front is durable already, and a copy of the directory: what a sync writes.
ghost use Rattle.std.specs.Prelude.{◌-◌, ◌≤◌, OnOk};
ghost use Rattle.agg_buffer.specs.Buffer.{filled_of};

use crate::Cyclone;
use dir_table::Directory;
use edge_io::Failed;
use logged_disk::Disk;
use stripe_copies::{Copies, PacksEntries, SyncStop};
use stripe_header::CopyState;
use tape_base::{BLOCK, block};

impl<D: Disk, R: Directory + Drop> Cyclone<D, R> {
    ghost use Rattle.cyclone.specs.Cyclone.{HasBuffer, IsCyclone, SameTape, seen_cyclone};
    ghost use Rattle.cyclone.specs.Syncing.{HasFront, WritesRest};

    /// Writes the buffer's blocks from so many on by one write; none where all stand there already.
    /// The blocks that are written may hold any bytes where the device refuses.
    pub fn write_rest(&mut self, durable: u32) -> Result<(), Failed>
        requires turns { IsCyclone self.old }
        requires front { durable ≤ filled_of (seen_cyclone self.old).buffer }
        requires calls { 1 ≤ (seen_cyclone self.old).device.calls }
        requires blocks { filled_of (seen_cyclone self.old).buffer - durable
            ≤ (seen_cyclone self.old).device.blocks }
        ensures turns { IsCyclone self.new }
        ensures same { SameTape (seen_cyclone self.old) (seen_cyclone self.new) }
        ensures device { WritesRest durable (seen_cyclone self.old) (seen_cyclone self.new) result }
        ensures whole { HasFront durable (seen_cyclone self.old)
            → OnOk result (HasBuffer (seen_cyclone self.new)) }
    {
        let from = durable as usize * BLOCK;
        if from == self.buffer.bytes().len() {
            return Ok(());
        }
        let first = block(&self.geometry, self.buffer.cursor() + durable as u64);
        self.disk.write(first, &self.buffer.bytes()[from..])
    }
}

impl<D: Disk, R: PacksEntries + Drop> Cyclone<D, R> {
    ghost use Rattle.cyclone.specs.Cyclone.{IsCyclone, SameTape, seen_cyclone};
    ghost use Rattle.cyclone.specs.Syncing.{MaySync, SyncsCopy};

    /// A whole sync: a copy of the directory is written that says this, and is the newest then.
    /// Where the device refuses a call the newest copy stays, and the serial is used up.
    pub fn sync_copy(&mut self, copies: &mut Copies, state: CopyState) -> Result<u64, SyncStop>
        requires turns { IsCyclone self.old }
        requires may { MaySync (seen_cyclone self.old) copies.old state }
        ensures turns { IsCyclone self.new }
        ensures same { SameTape (seen_cyclone self.old) (seen_cyclone self.new) }
        ensures syncs { SyncsCopy copies.old copies.new state (seen_cyclone self.old)
            (seen_cyclone self.new) result }
    {
        copies.whole(&mut self.disk, &self.directory, state)
    }
}
