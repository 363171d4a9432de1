// What gives bytes.
ghost use Rattle.std.specs.Prelude.{◌≡◌, ℕ, List, Option};
ghost use Rattle.std.specs.Io.{ReadsAtMost};
ghost use Rattle.std.specs.Io.KnownBytes.{ReadConsumes};
ghost use Rattle.hex.specs.Hex.{IsBytes};
ghost use Rattle.device_log.specs.Streams.{SourceRead, given_by, read_faults};
ghost use Rattle.edge_io.specs.Source.{NotesRead};

use thiserror::Error;

/// A call of a source, a sink or a device did not do its work, and its count of faults says so.
#[derive(Clone, Copy, Debug, PartialEq, Eq, Error)]
#[error("a call did not do its work")]
pub struct Failed;

/// Each read is in its log.
pub trait Source {
    /// The reads so far, the newest first.
    ghost reads: { Self → List SourceRead };

    /// The bytes that are left, where the source tells them.
    ghost left: { Self → Option (List ℕ) };

    /// Reads some of the bytes that are left, and none only at the end or into an empty place.
    fn read(&mut self, into: &mut [u8]) -> Result<usize, Failed>
        ensures bound { ReadsAtMost result into.new }
        ensures logs { NotesRead (reads self.old) (reads self.new) result into.new }
        ensures left { ReadConsumes (left self.old) (left self.new) result into.new };

    /// How many reads have failed.
    fn faults(&self) -> u64
        ensures { result ≡ read_faults (reads self.now) };

    ghost are_bytes: { (source : Self) → IsBytes (given_by (reads source)) };
}
