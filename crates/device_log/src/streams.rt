// What the reads of a source gave, and what the writes of a sink took.
ghost use Rattle.std.specs.Prelude.{◌≡◌, [], ◌∷◌};
ghost use Rattle.hex.specs.Hex.{IsBytes};
ghost use Rattle.device_log.specs.Streams.{GaveBytes, CameToEnd, RefusedRead, TookBytes, RefusedWrite, given_by, taken_by, reads_of_rows, writes_of_rows};

use crate::rows::GhostRows;

/// The reads of a source. It has no bytes, and clauses alone can read it.
#[derive(Drop)]
pub struct SourceLog {
    rows: GhostRows,
    ghost are_bytes: { IsBytes (given_by (reads_of_rows rows.rows)) },
}

#[tactic(auto, unfolding(crate::specs::Streams::reads_of_rows))]
impl SourceLog {
    ghost use Rattle.device_log.specs.StreamLogs.{reads_of};

    pub fn new() -> SourceLog
        ensures { reads_of result ≡ [] }
    {
        SourceLog {
            rows: GhostRows::new(),
        }
    }

    pub fn gave(&mut self, bytes: &[u8])
        ensures { reads_of self.new ≡ GaveBytes bytes.now ∷ reads_of self.old }
    {
        self.rows.note(&[0], bytes);
    }

    pub fn came_to_end(&mut self)
        ensures { reads_of self.new ≡ CameToEnd ∷ reads_of self.old }
    {
        self.rows.note(&[1], &[]);
    }

    /// A read failed, and the count of faults is this behind it.
    pub fn refused(&mut self, count: u64)
        ensures { reads_of self.new ≡ RefusedRead count ∷ reads_of self.old }
    {
        self.rows.note(&[2, count], &[]);
    }
}

/// The writes of a sink. It has no bytes, and clauses alone can read it.
#[derive(Drop)]
pub struct SinkLog {
    rows: GhostRows,
    ghost are_bytes: { IsBytes (taken_by (writes_of_rows rows.rows)) },
}

#[tactic(auto, unfolding(crate::specs::Streams::writes_of_rows))]
impl SinkLog {
    ghost use Rattle.device_log.specs.StreamLogs.{writes_of};

    pub fn new() -> SinkLog
        ensures { writes_of result ≡ [] }
    {
        SinkLog {
            rows: GhostRows::new(),
        }
    }

    pub fn took(&mut self, bytes: &[u8])
        ensures { writes_of self.new ≡ TookBytes bytes.now ∷ writes_of self.old }
    {
        self.rows.note(&[0], bytes);
    }

    /// A write failed: this front was taken all the same, and the count of faults is this behind it.
    pub fn refused(&mut self, front: &[u8], count: u64)
        ensures { writes_of self.new ≡ RefusedWrite front.now count ∷ writes_of self.old }
    {
        self.rows.note(&[1, count], front);
    }
}
