//! What racing reads did, in order, for clauses alone.
ghost use Rattle.std.specs.Prelude.{◌≡◌, List, [], ◌∷◌};
ghost use Rattle.racing_read.specs.RaceCalls.{PeekGave, PeekFailed, FloorLoaded};

use device_log::GhostRows;

/// The reads of an eye and the loads of a floor, in the order in which they were made. It has no
/// bytes, and clauses alone can read it.
#[derive(Drop)]
pub struct RaceLog {
    rows: GhostRows,
}

#[tactic(auto, unfolding(crate::specs::RaceCalls::race_calls_of_rows))]
impl RaceLog {
    ghost use Rattle.racing_read.specs.RaceLog.{race_calls};

    pub fn new() -> RaceLog
        ensures { race_calls result ≡ [] }
    {
        RaceLog {
            rows: GhostRows::new(),
        }
    }

    /// An eye gave these bytes, from a block on.
    pub fn gave(&mut self, block: u64, bytes: &[u8])
        ensures { race_calls self.new ≡ PeekGave block bytes.now ∷ race_calls self.old }
    {
        self.rows.note(&[0, block], bytes);
    }

    /// An eye could not read so many bytes, and its count of faults is this behind it.
    pub fn missed(&mut self, block: u64, bytes: u64, count: u64)
        ensures { race_calls self.new ≡ PeekFailed block bytes count ∷ race_calls self.old }
    {
        self.rows.note(&[1, block, bytes, count], &[]);
    }

    /// A floor was loaded. Only who loads one may note it, so this is the crate's own.
    pub(crate) fn loaded(&mut self, floor: u64)
        ensures { race_calls self.new ≡ FloorLoaded floor ∷ race_calls self.old }
    {
        self.rows.note(&[2, floor], &[]);
    }
}
