// What the switch of a cyclone's device is told.
ghost use Rattle.std.specs.Prelude.{◌≡◌, ◌<◌, ◌≤◌, IsTrue};
ghost use Rattle.tape_base.specs.Place.{block_of};
ghost use Rattle.device_log.specs.Calls.{Fail, Flipped, StopAfter, Told};

use crate::Cyclone;
use dir_table::Directory;
use logged_disk::{Disk, PowerDisk};
use tape_base::block;

impl<D: PowerDisk, R: Directory + Drop> Cyclone<D, R> {
    ghost use Rattle.cyclone.specs.Cyclone.{IsCyclone, seen_cyclone};
    ghost use Rattle.cyclone.specs.Switch.{HasSwitch, IsSwitched};

    /// The nth read, write or sync of the device from now on fails.
    pub fn fail(&mut self, nth: u64)
        requires turns { IsCyclone self.old }
        requires switch { HasSwitch (seen_cyclone self.old) }
        requires nth { 0 < nth }
        ensures turns { IsCyclone self.new }
        ensures switched { IsSwitched (Told (Fail nth)) (seen_cyclone self.old) (seen_cyclone self.new) }
    {
        self.disk.fail(nth);
    }

    /// So many reads, writes and syncs of the device pass, and all later ones fail until a cut.
    pub fn stop_after(&mut self, calls: u64)
        requires turns { IsCyclone self.old }
        requires switch { HasSwitch (seen_cyclone self.old) }
        ensures turns { IsCyclone self.new }
        ensures switched { IsSwitched (Told (StopAfter calls)) (seen_cyclone self.old)
            (seen_cyclone self.new) }
    {
        self.disk.stop_after(calls);
    }

    /// Turns the lowest bit of one byte of the block of a place.
    pub fn flip(&mut self, place: u64, byte: u32)
        requires turns { IsCyclone self.old }
        requires switch { HasSwitch (seen_cyclone self.old) }
        requires byte { byte < 512 }
        ensures turns { IsCyclone self.new }
        ensures switched { IsSwitched (Flipped (block_of (seen_cyclone self.old).geometry place) byte)
            (seen_cyclone self.old) (seen_cyclone self.new) }
    {
        self.disk.flip(block(&self.geometry, place), byte);
    }
}
