// What a bay gave and got back.
ghost use Rattle.std.specs.Prelude.{◌≡◌, ◌<◌, ◌∷◌, [], length};
ghost use Rattle.device_log.specs.Faults.{next_count};
ghost use Rattle.device_bay.specs.Calls.{Gave, RefusedAttach, TookBack, bay_faults, gifts_of, number_behind, out_of};
ghost use Rattle.device_bay.specs.Register.{IsRegister, calls_in};

use crate::entries::GhostEntries;
use logged_disk::Disk;

/// A bay's log, with the two counts that it needs when it runs.
#[derive(Drop)]
pub struct Register<D> {
    given: u64,
    faults: u64,
    entries: GhostEntries<D>,
}

#[tactic(auto, unfolding(crate::specs::Register::calls_of_entries))]
impl<D: Disk> Register<D> {
    pub fn new() -> Register<D>
        ensures calls { calls_in D.state result ≡ [] }
        ensures register { IsRegister D.state result }
    {
        Register {
            given: 0,
            faults: 0,
            entries: GhostEntries::new(),
        }
    }

    /// The number of the next device.
    pub fn number(&self) -> u64
        requires { IsRegister D.state self.now }
        ensures { result ≡ number_behind (length (gifts_of (calls_in D.state self.now))) }
    {
        self.given
    }

    pub fn faults(&self) -> u64
        requires { IsRegister D.state self.now }
        ensures { result ≡ bay_faults (calls_in D.state self.now) }
    {
        self.faults
    }

    pub fn gave(&mut self, name: &[u8], blocks: u64)
        requires { IsRegister D.state self.old }
        ensures calls { calls_in D.state self.new
            ≡ Gave name.now blocks ∷ calls_in D.state self.old }
        ensures register { IsRegister D.state self.new }
    {
        self.given = self.given.saturating_add(1);
        self.entries.note(&[0, blocks], name);
    }

    /// Counts an attach that failed, and returns the count.
    pub fn refused(&mut self, name: &[u8], blocks: u64) -> u64
        requires { IsRegister D.state self.old }
        ensures calls { calls_in D.state self.new
            ≡ RefusedAttach name.now blocks result ∷ calls_in D.state self.old }
        ensures count { result ≡ next_count (bay_faults (calls_in D.state self.old)) }
        ensures register { IsRegister D.state self.new }
    {
        let count = self.faults.saturating_add(1);
        self.faults = count;
        self.entries.note(&[1, blocks, count], name);
        count
    }

    /// Notes a device that came back, as it is now.
    pub fn took(&mut self, device: &D)
        requires register { IsRegister D.state self.old }
        requires out { 0 < out_of (calls_in D.state self.old) }
        ensures calls { calls_in D.state self.new
            ≡ TookBack (D.state device.now) ∷ calls_in D.state self.old }
        ensures register { IsRegister D.state self.new }
    {
        self.entries = self.entries.with(device);
    }
}
