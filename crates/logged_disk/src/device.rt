// What a block device does.
ghost use Rattle.std.specs.Prelude.{◌≡◌, ℕ, ◌+◌, ◌/◌, ◌≤◌, ◌<◌, ◌∷◌, List, length, OnOk, OnErr, IsTrue, true, false};
ghost use Rattle.device_log.specs.Image.{IsImage, span};
ghost use Rattle.device_log.specs.Calls.{Read, Wrote, Synced, Told, Fail, StopAfter, PowerCut, Flipped};
ghost use Rattle.device_log.specs.Faults.{IsLog, faults_of, obeys_switch};
ghost use Rattle.device_log.specs.Seen.{ReadsAreSeen};
ghost use Rattle.logged_disk.specs.Device.{DeviceState, seen, IsTrusted, IsHonest, IsWhole, Keeps, Affords, Adds, Logs, CutLeaves, has_flip};
ghost use Rattle.logged_disk.specs.Honest.{CutsAreHonest};

use device_log::CutChoice;
use edge_io::Failed;
use std::alloc::AllocError;

/// Blocks of 512 bytes with numbers from 0 on. Each read, write and sync is in its log.
pub trait Disk {
    ghost state: { Self → DeviceState };

    /// How many blocks the device has.
    fn blocks(&self) -> u64
        ensures { result ≡ (state self.now).size };

    /// How many reads, writes and syncs have failed.
    fn faults(&self) -> u64
        ensures { result ≡ (state self.now).faults };

    /// Makes room for at least so many calls that write, sync or are told to the switch, of so many
    /// blocks together. Room that is there already counts.
    fn make_room(&mut self, calls: u32, blocks: u64) -> Result<(), AllocError>
        ensures keeps { Keeps 0 0 (state self.old) (state self.new) }
        ensures room { OnOk result (Affords calls blocks (state self.old) (state self.new)) }
        ensures none { OnErr result (Affords 0 0 (state self.old) (state self.new)) };

    /// Reads whole blocks. After a failure the place may hold any bytes.
    fn read(&mut self, block: u64, into: &mut [u8]) -> Result<(), Failed>
        requires whole { IsWhole (length into.old) }
        requires within { block + length into.old / 512 ≤ (state self.old).size }
        ensures keeps { Keeps 0 0 (state self.old) (state self.new) }
        ensures logs { Logs (Read block into.new) result (state self.old) (state self.new) }
        ensures gives { OnOk result (IsTrusted (state self.new)
            → into.new ≡ span (seen (state self.old)) block (length into.old / 512)) };

    /// Writes whole blocks. After a failure each of them may hold any bytes.
    fn write(&mut self, block: u64, bytes: &[u8]) -> Result<(), Failed>
        requires whole { IsWhole (length bytes.now) }
        requires within { block + length bytes.now / 512 ≤ (state self.old).size }
        requires calls { 1 ≤ (state self.old).calls }
        requires blocks { length bytes.now / 512 ≤ (state self.old).blocks }
        ensures keeps { Keeps 1 (length bytes.now / 512) (state self.old) (state self.new) }
        ensures logs { Logs (Wrote block bytes.now) result (state self.old) (state self.new) };

    /// After it a cut leaves what is seen. After a failure all that was pending still is.
    fn sync(&mut self) -> Result<(), Failed>
        requires { 1 ≤ (state self.old).calls }
        ensures keeps { Keeps 1 0 (state self.old) (state self.new) }
        ensures logs { Logs Synced result (state self.old) (state self.new) };

    ghost is_log: { (disk : Self) → IsLog (state disk).past };

    ghost was_image: { (disk : Self) → IsImage (state disk).first };

    ghost counted: { (disk : Self) → (state disk).faults ≡ faults_of (state disk).past };

    ghost obeys: { (disk : Self)
        → (state disk).has_switch ≡ true → obeys_switch (state disk).past ≡ true };

    ghost reads: { (disk : Self)
        → IsTrusted (state disk) → ReadsAreSeen (state disk).first (state disk).past };

    /// Whether a device is trusted is decided by its log.
    ghost tells: { (disk : Self)
        → ReadsAreSeen (state disk).first (state disk).past → IsTrusted (state disk) };

    /// What has a switch is no part of the host, and gives what it was told.
    ghost switched: { (disk : Self)
        → (state disk).has_switch ≡ true → IsTrusted (state disk) };

    ghost honest: { (disk : Self) → IsHonest (state disk)
        → CutsAreHonest (state disk).settled (state disk).first (state disk).past };

    /// What has a switch is honest until a bit is turned.
    ghost unturned: { (disk : Self) → (state disk).has_switch ≡ true
        → has_flip (state disk).past ≡ false → IsHonest (state disk) };
}

/// A device that may have a switch, by which its power is cut and its calls are made to fail.
pub trait PowerDisk: Disk {
    fn has_switch(&self) -> bool
        ensures { result ≡ (Self.state self.now).has_switch };

    /// Cuts the power. What is there behind it is kept.
    fn cut(&mut self, choice: CutChoice)
        requires switch { IsTrue (Self.state self.old).has_switch }
        requires calls { 1 ≤ (Self.state self.old).calls }
        ensures keeps { Keeps 1 0 (Self.state self.old) (Self.state self.new) }
        ensures logs { (left : List ℕ)
            × Adds (PowerCut choice left) (Self.state self.old) (Self.state self.new) }
        ensures leaves { IsHonest (Self.state self.new)
            → CutLeaves (Self.state self.old) (seen (Self.state self.new)) };

    /// The nth read, write or sync from now on fails.
    fn fail(&mut self, nth: u64)
        requires switch { IsTrue (Self.state self.old).has_switch }
        requires calls { 1 ≤ (Self.state self.old).calls }
        requires nth { 0 < nth }
        ensures keeps { Keeps 1 0 (Self.state self.old) (Self.state self.new) }
        ensures logs { Adds (Told (Fail nth)) (Self.state self.old) (Self.state self.new) };

    /// So many reads, writes and syncs pass, and all later ones fail until a cut.
    fn stop_after(&mut self, calls: u64)
        requires switch { IsTrue (Self.state self.old).has_switch }
        requires calls { 1 ≤ (Self.state self.old).calls }
        ensures keeps { Keeps 1 0 (Self.state self.old) (Self.state self.new) }
        ensures logs { Adds (Told (StopAfter calls)) (Self.state self.old) (Self.state self.new) };

    /// Turns the lowest bit of one byte of a block, in what is seen and in what is kept.
    fn flip(&mut self, block: u64, byte: u32)
        requires switch { IsTrue (Self.state self.old).has_switch }
        requires calls { 1 ≤ (Self.state self.old).calls }
        requires blocks { 1 ≤ (Self.state self.old).blocks }
        requires within { block < (Self.state self.old).size }
        requires byte { byte < 512 }
        ensures keeps { Keeps 1 1 (Self.state self.old) (Self.state self.new) }
        ensures logs { Adds (Flipped block byte) (Self.state self.old) (Self.state self.new) }
        ensures trust { (Self.state self.new).trust ≤ 1 };
}
