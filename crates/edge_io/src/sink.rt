// What takes bytes.
ghost use Rattle.std.specs.Prelude.{◌≡◌, List};
ghost use Rattle.hex.specs.Hex.{IsBytes};
ghost use Rattle.device_log.specs.Streams.{SinkWrite, taken_by, write_faults};
ghost use Rattle.edge_io.specs.Sink.{NotesWrite};

use crate::Failed;

/// Each write is in its log.
pub trait Sink {
    /// The writes so far, the newest first.
    ghost writes: { Self → List SinkWrite };

    /// Writes all of the bytes out. After a failure the sink has taken a front of them.
    fn write_all(&mut self, bytes: &[u8]) -> Result<(), Failed>
        ensures { NotesWrite (writes self.old) (writes self.new) result bytes.now };

    /// How many writes have failed.
    fn faults(&self) -> u64
        ensures { result ≡ write_faults (writes self.now) };

    ghost are_bytes: { (sink : Self) → IsBytes (taken_by (writes sink)) };
}
