// A device of the host's bay.
ghost use Rattle.std.specs.Prelude.{◌≡◌, ℕ, ◌+◌, ◌/◌, ◌<◌, ◌≤◌, List, length, IsTrue, OnOk, OnErr};
ghost use Rattle.device_log.specs.Image.{span};
ghost use Rattle.device_log.specs.Cuts.{left_by};
ghost use Rattle.device_log.specs.Calls.{Read, Wrote, Synced, Told, Fail, StopAfter, PowerCut, Flipped};
ghost use Rattle.logged_disk.specs.Device.{seen, IsTrusted, IsHonest, IsWhole, Keeps, Affords, Adds, Logs, CutLeaves};

use device_log::CutChoice;
use edge_io::Failed;
use logged_disk::{Disk, FileDisk, FileStart, MemDisk, PowerDisk};
use std::alloc::AllocError;

/// A device in memory, or one in a file, which has no switch.
#[derive(Drop)]
pub enum HostDisk<S> {
    Memory(MemDisk),
    File(FileDisk<S>),
}

impl<S: FileStart> Disk for HostDisk<S> {
    ghost use Rattle.device_bay.specs.HostDisk.{host_state, host_is_log, host_was_image, host_counted, host_obeys, host_reads, host_tells, host_switched, host_honest, host_unturned};

    ghost state = { λ disk. host_state S.first disk };

    fn blocks(&self) -> u64 {
        match self {
            HostDisk::Memory(disk) => disk.blocks(),
            HostDisk::File(disk) => disk.blocks(),
        }
    }

    fn faults(&self) -> u64 {
        match self {
            HostDisk::Memory(disk) => disk.faults(),
            HostDisk::File(disk) => disk.faults(),
        }
    }

    fn make_room(&mut self, calls: u32, blocks: u64) -> Result<(), AllocError> {
        match self {
            HostDisk::Memory(disk) => disk.make_room(calls, blocks),
            HostDisk::File(disk) => disk.make_room(calls, blocks),
        }
    }

    fn read(&mut self, block: u64, into: &mut [u8]) -> Result<(), Failed> {
        match self {
            HostDisk::Memory(disk) => disk.read(block, into),
            HostDisk::File(disk) => disk.read(block, into),
        }
    }

    fn write(&mut self, block: u64, bytes: &[u8]) -> Result<(), Failed> {
        match self {
            HostDisk::Memory(disk) => disk.write(block, bytes),
            HostDisk::File(disk) => disk.write(block, bytes),
        }
    }

    fn sync(&mut self) -> Result<(), Failed> {
        match self {
            HostDisk::Memory(disk) => disk.sync(),
            HostDisk::File(disk) => disk.sync(),
        }
    }

    ghost is_log = { host_is_log S.first };

    ghost was_image = { host_was_image S.first S.is_image };

    ghost counted = { host_counted S.first };

    ghost obeys = { host_obeys S.first };

    ghost reads = { host_reads S.first };

    ghost tells = { host_tells S.first };

    ghost switched = { host_switched S.first };

    ghost honest = { host_honest S.first };

    ghost unturned = { host_unturned S.first };
}

// Each call but the first has a switch, so it is one of memory.
impl<S: FileStart> PowerDisk for HostDisk<S> {
    ghost use Rattle.device_bay.specs.HostDisk.{host_state};

    fn has_switch(&self) -> bool {
        match self {
            HostDisk::Memory(disk) => disk.has_switch(),
            HostDisk::File(_) => false,
        }
    }

    fn cut(&mut self, choice: CutChoice)
        requires switch { IsTrue (host_state S.first self.old).has_switch }
        requires calls { 1 ≤ (host_state S.first self.old).calls }
        ensures keeps { Keeps 1 0 (host_state S.first self.old) (host_state S.first self.new) }
        ensures logs { (left : List ℕ) × Adds (PowerCut choice left)
            (host_state S.first self.old) (host_state S.first self.new) }
        ensures leaves { IsHonest (host_state S.first self.new)
            → CutLeaves (host_state S.first self.old) (seen (host_state S.first self.new)) }
        ensures exact { (j : ℕ) → j < (host_state S.first self.old).size
            → seen (host_state S.first self.new) j
            ≡ left_by choice (host_state S.first self.old).first
            (host_state S.first self.old).past j }
    {
        if let HostDisk::Memory(disk) = self {
            disk.cut(choice);
        }
    }

    fn fail(&mut self, nth: u64) {
        if let HostDisk::Memory(disk) = self {
            disk.fail(nth);
        }
    }

    fn stop_after(&mut self, calls: u64) {
        if let HostDisk::Memory(disk) = self {
            disk.stop_after(calls);
        }
    }

    fn flip(&mut self, block: u64, byte: u32) {
        if let HostDisk::Memory(disk) = self {
            disk.flip(block, byte);
        }
    }
}
