// What a block device did.
ghost use Rattle.std.specs.Prelude.{◌≡◌, ◌%◌, [], ◌∷◌, length};
ghost use Rattle.device_log.specs.Calls.{Read, Wrote, Synced, RefusedCall, ToRead, ToWrite, ToSync, Told, Fail, StopAfter, PowerCut, Flipped};
ghost use Rattle.device_log.specs.Image.{blank, span};
ghost use Rattle.device_log.specs.Cuts.{left_by};
ghost use Rattle.device_log.specs.Faults.{IsLog, faults_of, next_count};
ghost use Rattle.device_log.specs.Rows.{calls_of_rows, number_of};

use crate::CutChoice;
use crate::rows::GhostRows;

/// The calls of a block device. It has no bytes, and clauses alone can read it.
#[derive(Drop)]
pub struct DeviceLog {
    rows: GhostRows,
    ghost is_log: { IsLog (calls_of_rows rows.rows) },
}

fn number(choice: CutChoice) -> u64
    ensures { result ≡ number_of choice }
{
    match choice {
        CutChoice::Lost => 0,
        CutChoice::Kept => 1,
        CutChoice::Torn => 2,
        CutChoice::Junk => 3,
    }
}

#[tactic(auto, unfolding(crate::specs::Rows::calls_of_rows))]
impl DeviceLog {
    ghost use Rattle.device_log.specs.DeviceLog.{calls_of};

    pub fn new() -> DeviceLog
        ensures { calls_of result ≡ [] }
    {
        DeviceLog {
            rows: GhostRows::new(),
        }
    }

    pub fn read(&mut self, at: u64, bytes: &[u8])
        requires { length bytes.now % 512 ≡ 0 }
        ensures { calls_of self.new ≡ Read at bytes.now ∷ calls_of self.old }
    {
        self.rows.note(&[0, at], bytes);
    }

    pub fn wrote(&mut self, at: u64, bytes: &[u8])
        requires { length bytes.now % 512 ≡ 0 }
        ensures { calls_of self.new ≡ Wrote at bytes.now ∷ calls_of self.old }
    {
        self.rows.note(&[1, at], bytes);
    }

    pub fn synced(&mut self)
        ensures { calls_of self.new ≡ Synced ∷ calls_of self.old }
    {
        self.rows.note(&[2], &[]);
    }

    pub fn refused_read(&mut self, at: u64, blocks: u64, count: u64)
        requires { count ≡ next_count (faults_of (calls_of self.old)) }
        ensures { calls_of self.new ≡ RefusedCall (ToRead at blocks) count ∷ calls_of self.old }
    {
        self.rows.note(&[3, at, blocks, count], &[]);
    }

    /// Behind it these bytes are seen, as far as they go.
    pub fn refused_write(&mut self, at: u64, blocks: u64, left: &[u8], count: u64)
        requires whole { length left.now % 512 ≡ 0 }
        requires count { count ≡ next_count (faults_of (calls_of self.old)) }
        ensures { calls_of self.new
            ≡ RefusedCall (ToWrite at blocks left.now) count ∷ calls_of self.old }
    {
        self.rows.note(&[4, at, blocks, count], left);
    }

    pub fn refused_sync(&mut self, count: u64)
        requires { count ≡ next_count (faults_of (calls_of self.old)) }
        ensures { calls_of self.new ≡ RefusedCall ToSync count ∷ calls_of self.old }
    {
        self.rows.note(&[5, count], &[]);
    }

    pub fn told_fail(&mut self, nth: u64)
        ensures { calls_of self.new ≡ Told (Fail nth) ∷ calls_of self.old }
    {
        self.rows.note(&[6, nth], &[]);
    }

    pub fn told_stop(&mut self, calls: u64)
        ensures { calls_of self.new ≡ Told (StopAfter calls) ∷ calls_of self.old }
    {
        self.rows.note(&[7, calls], &[]);
    }

    /// A cut of a device in memory, of so many blocks, that was blank at first.
    pub fn cut_in_memory(&mut self, choice: CutChoice, blocks: u64)
        ensures { calls_of self.new
            ≡ PowerCut choice (span (left_by choice blank (calls_of self.old)) 0 blocks)
            ∷ calls_of self.old }
    {
        self.rows.note(&[8, number(choice), blocks], &[]);
    }

    pub fn flipped(&mut self, at: u64, byte: u64)
        ensures { calls_of self.new ≡ Flipped at byte ∷ calls_of self.old }
    {
        self.rows.note(&[9, at, byte], &[]);
    }
}
