//! What reads a device beside its holder.
ghost use Rattle.std.specs.Prelude.{◌≡◌, ◌%◌, ℕ, length};
ghost use Rattle.racing_read.specs.RaceLog.{race_calls};
ghost use Rattle.racing_read.specs.Races.{Peeks};

use crate::log::RaceLog;
use edge_io::Failed;

/// An eye on a device that another may be writing. Of what is being written it may give any part.
pub trait Peek {
    /// How many of its reads have failed.
    ghost missed: { Self → ℕ };

    /// Reads whole blocks, and notes the read as it went. After a failure the place may hold any
    /// bytes.
    fn read_at(&mut self, log: &mut RaceLog, block: u64, into: &mut [u8]) -> Result<(), Failed>
        requires whole { length into.old % 512 ≡ 0 }
        ensures { Peeks block into.new (missed self.old) (missed self.new) (race_calls log.old)
            (race_calls log.new) result };

    /// How many reads have failed.
    fn faults(&self) -> u64
        ensures { result ≡ missed self.now };
}
