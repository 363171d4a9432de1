// The calls of a cache.
ghost use Rattle.std.specs.Prelude.{ℕ, ◌≡◌, ◌*◌, ◌⊎◌, [], ◌∷◌, IfOk, length};
ghost use Rattle.tape_base.specs.Geometry.{budget_of};
ghost use Rattle.cache_model.specs.Legal.{is_writing};
ghost use Rattle.cache_model.specs.Permit.{Flush, GiveUp, Look, ReadOn, Remove, StopReading, Write};
ghost use Rattle.logged_disk.specs.Device.{TellsAll};
ghost use Rattle.cache_model.specs.Vectors.{AreTold, AreVectors, IsVectorAs};
ghost use Rattle.call_laws.specs.Untold.{Untold};
ghost use Rattle.cache_model.specs.Contents.{AnyContents, AreRecordedAs, Contents};
ghost use Rattle.call_laws.specs.Moments.{At, NothingKnown};
ghost use Rattle.call_laws.specs.Serves.{ServesFrom, ServesTold};
ghost use Rattle.cache_calls.specs.Actors.{IsOpenReader, IsWriterOf, ReaderSeen, WriterSeen};
ghost use Rattle.cache_model.specs.Subjects.{IsOfFlush, IsOfPut, IsOfReader};
ghost use Rattle.cache_calls.specs.Adds.{AddsOnly, AddsSoundly};
ghost use Rattle.cache_calls.specs.Asked.{close_asks, given_up_at, progress_at, unless_wanting, write_asks};
ghost use Rattle.cache_calls.specs.Keeping.{Goes, IsAtRest, KeepsUnharmed, StaysUnharmed, state_at};
ghost use Rattle.cache_calls.specs.Plain.{Flushes, Removes};
ghost use Rattle.cache_calls.specs.Standing.{GivesAsTold, IsToldClosed, IsToldWritten, StaysStanding};
ghost use Rattle.cache_calls.specs.Readers.{ClosesReader, HasItsTable, IsOtherNext, IsToldTo, OpensReader, ReaderGoesOn, ReadsNext};
ghost use Rattle.cache_calls.specs.Writers.{Closes, GivesUp, NumberAtClose, OpensWriter, WriterCloses, WriterGoesOn, Writes, opened_writer_record};

use alternate_vector::Fields;
use cache_answers::{Flushed, NextPiece, Opened, Receipt, Refusal, Removal};
use std::alloc::AllocError;
use tape_base::{Actor, Geometry, Key};

/// A cache: objects by their keys, which are written and read in parts.
///
/// Of each call `serves` says which step of a legal history it makes, or, on a device that did not tell
/// its content, that it shows two documents of one SHA-256; `stands` which bytes of pieces stand behind
/// it; `gives` when each answer comes, and which records stand then; `keeps` what every
/// call keeps; `own` of whom its records speak; and `writer` or `reader` what became of that. A call
/// that has no `now` is the same at every moment.
pub trait Calls {
    /// What is at hand of a put while it is written.
    type Writer: Drop;

    /// What is at hand of a body while it is read.
    type Reader: Drop;

    /// The records, the device with its log, and what the cache is for the whole of its session.
    ghost at: { Self → At };

    /// What holds between calls.
    ghost holds: { Self → Type 0 };

    /// What is told of the bytes of pieces stands, as long as the device tells its content.
    ghost stands: { Self → Contents → Type 0 };

    ghost written: { Self.Writer → WriterSeen };

    ghost reading: { Self.Reader → ReaderSeen };

    fn geometry(&self) -> &Geometry
        requires { holds self.now }
        ensures { result.now ≡ (state_at (at self.now)).geometry };

    /// The number of a writer's put.
    fn put_of(&self, writer: &Self::Writer) -> u64
        ensures { result ≡ (written writer.now).put };

    /// Whether the put of a writer is open.
    fn is_open(&self, writer: &Self::Writer) -> bool
        requires { holds self.now }
        ensures { result ≡ is_writing (state_at (at self.now)) (written writer.now).put };

    /// Opens a writer of a new put.
    fn open_write(
        &mut self,
        actor: Actor,
        key: Key,
        request: Fields,
        response: Fields,
        pin: u64,
    ) -> Result<Self::Writer, Refusal>
        requires { holds self.old }
        ensures serves { let asked = Write actor.0 key request response pin ∷ [] in
            (now : ℕ) → ServesTold now (at self.old) (at self.new) asked
            (progress_at (state_at (at self.old)).next_put asked result) }
        ensures gives { OpensWriter written (at self.old) (at self.new)
            (opened_writer_record (state_at (at self.old)) actor key request response pin) result }
        ensures stands { StaysStanding stands AnyContents self.old self.new }
        ensures keeps { KeepsUnharmed at holds self.old self.new }
        ensures own { AddsOnly (IsOfPut (state_at (at self.old)).next_put) (at self.old) (at self.new) };

    /// Takes bytes up to the next cut, and says how many. As soon as a fragment has gathered it is
    /// cut and placed, behind a flush where it has no room, which copies what is due at `now`. Where
    /// the directory is full, pieces of others may go for it. A refusal leaves the writer as it was.
    fn write(&mut self, writer: &mut Self::Writer, bytes: &[u8], now: u64) -> Result<usize, Refusal>
        requires holds { holds self.old }
        requires writer { IsWriterOf (state_at (at self.old)) (written writer.old) }
        ensures serves { let asked = write_asks (state_at (at self.old)) (written writer.old) bytes.now in
            ServesTold now (at self.old) (at self.new) asked
            (progress_at (written writer.old).put asked result) }
        ensures gives { Writes (at self.old) (at self.new) (written writer.old) bytes.now result }
        ensures stands { StaysStanding stands (IsToldWritten (state_at (at self.old)) (written writer.old)
            bytes.now result) self.old self.new }
        ensures keeps { KeepsUnharmed at holds self.old self.new }
        ensures own { AddsSoundly (IsOfPut (written writer.old).put) (at self.old) (at self.new) }
        ensures writer { WriterGoesOn (written writer.old) bytes.now result
            (state_at (at self.old)) (state_at (at self.new)) (written writer.new) };

    /// Closes a put: what is gathered is its last fragment, and its vector is placed, with the
    /// alternates that the key had and that its request does not match. Where a fragment is lost, or
    /// the vector is no piece, the put is given up. A writer that the device refuses may be closed
    /// again or given up. A flush copies what is due at `now`. Pieces of others may go for what is
    /// placed.
    fn close_write(&mut self, writer: &mut Self::Writer, now: u64) -> Result<Receipt, Refusal>
        requires holds { holds self.old }
        requires writer { IsWriterOf (state_at (at self.old)) (written writer.old) }
        ensures serves { let asked = close_asks (state_at (at self.old)) (written writer.old) in
            ServesFrom (Untold (at self.new).device IsVectorAs) now (at self.old) (at self.new) asked
            (progress_at (written writer.old).put asked result)
            AreTold (NumberAtClose (written writer.old) result) }
        ensures gives { Closes (at self.old) (at self.new) (written writer.old) result }
        ensures stands { StaysStanding stands (IsToldClosed (state_at (at self.new))
            (written writer.old)) self.old self.new }
        ensures keeps { KeepsUnharmed at holds self.old self.new }
        ensures own { AddsOnly (IsOfPut (written writer.old).put) (at self.old) (at self.new) }
        ensures writer { WriterCloses (written writer.old) result
            (state_at (at self.new)) (written writer.new) };

    /// Gives a put up that is open.
    fn abort_write(&mut self, writer: &mut Self::Writer) -> Result<u64, Refusal>
        requires holds { holds self.old }
        requires writer { IsWriterOf (state_at (at self.old)) (written writer.old) }
        ensures serves { let put = (written writer.old).put in
            (now : ℕ) → ServesTold now (at self.old) (at self.new) (GiveUp put ∷ [])
            (given_up_at put result) }
        ensures gives { GivesUp (at self.old) (at self.new) (written writer.old) result }
        ensures stands { StaysStanding stands AnyContents self.old self.new }
        ensures keeps { KeepsUnharmed at holds self.old self.new }
        ensures own { AddsOnly (IsOfPut (written writer.old).put) (at self.old) (at self.new) }
        ensures same { writer.new ≡ writer.old }
        ensures writer { IsWriterOf (state_at (at self.new)) (written writer.new) };

    /// Removes an object, where its vector is live.
    fn remove(&mut self, key: Key) -> Result<Removal, AllocError>
        requires { holds self.old }
        ensures serves { (now : ℕ) → ServesTold now (at self.old) (at self.new) (Remove key ∷ [])
            (unless_wanting (Remove key ∷ []) result) }
        ensures gives { Removes (at self.old) (at self.new) key result }
        ensures stands { StaysStanding stands AnyContents self.old self.new }
        ensures keeps { KeepsUnharmed at holds self.old self.new };

    /// Writes the buffer out where it is not empty, begins the next one, and copies into it, within
    /// half a buffer, what the next floor passes of pieces that are pinned past `now` or that an open
    /// reader has still to be given.
    fn flush(&mut self, now: u64) -> Result<Flushed, Refusal>
        requires { holds self.old }
        ensures serves { ServesTold now (at self.old) (at self.new) (Flush ∷ [])
            (progress_at 0 (Flush ∷ []) result) }
        ensures gives { Flushes (at self.old) (at self.new) result }
        ensures stands { StaysStanding stands AnyContents self.old self.new }
        ensures keeps { KeepsUnharmed at holds self.old self.new }
        ensures own { AddsSoundly IsOfFlush (at self.old) (at self.new) };

    /// Looks a key up: a stored alternate that matches the request, or else an open writer, or else
    /// the cause. It opens the reader of what it finds.
    fn open_read(
        &mut self,
        actor: Actor,
        key: Key,
        request: Fields,
    ) -> Result<Opened<Self::Reader>, AllocError>
        requires { holds self.old }
        ensures serves { let asked = Look actor.0 key request ∷ [] in
            (now : ℕ) → ServesFrom (Untold (at self.new).device IsVectorAs) now (at self.old) (at self.new) asked
            (unless_wanting asked result) AreTold (HasItsTable reading result) }
        ensures gives { OpensReader reading (at self.old) (at self.new) actor key request result }
        ensures stands { StaysStanding stands AnyContents self.old self.new }
        ensures keeps { KeepsUnharmed at holds self.old self.new }
        ensures own { AddsOnly (IsOfReader (state_at (at self.old)).next_reader)
            (at self.old) (at self.new) };

    /// Reads the next fragment to the front of `into`, or says why there is none.
    fn read_next(
        &mut self,
        reader: &mut Self::Reader,
        into: &mut [u8],
    ) -> Result<NextPiece, AllocError>
        requires holds { holds self.old }
        requires reader { IsOpenReader (state_at (at self.old)) (reading reader.old) }
        requires into { length into.old ≡ 512 * budget_of (state_at (at self.old)).geometry }
        ensures serves { let asked = ReadOn (reading reader.old).reader ∷ [] in
            (now : ℕ) → ServesFrom (Untold (at self.new).device IsVectorAs) now (at self.old) (at self.new) asked
            (unless_wanting asked result) (IsToldTo (reading reader.old)) NothingKnown }
        ensures gives { ReadsNext (at self.old) (at self.new) (reading reader.old) result into.new }
        ensures stands { StaysStanding stands AnyContents self.old self.new }
        ensures exact { GivesAsTold at stands self.old self.new (reading reader.old) result into.new }
        ensures keeps { Goes at holds self.old self.new }
        ensures unharmed { StaysUnharmed (at self.old) (at self.new)
            ⊎ IsOtherNext (state_at (at self.old)) (reading reader.old) }
        ensures own { AddsOnly (IsOfReader (reading reader.old).reader) (at self.old)
            (at self.new) }
        ensures reader { ReaderGoesOn (reading reader.old) result
            (state_at (at self.old)) (state_at (at self.new)) (reading reader.new) };

    /// Closes a reader. Where memory is wanting it gives the reader back.
    fn close_read(&mut self, reader: Self::Reader) -> Result<(), (AllocError, Self::Reader)>
        requires holds { holds self.old }
        requires reader { IsOpenReader (state_at (at self.old)) (reading reader) }
        ensures serves { let asked = StopReading (reading reader).reader ∷ [] in
            (now : ℕ) → ServesTold now (at self.old) (at self.new) asked
            (unless_wanting asked result) }
        ensures gives { ClosesReader reading (at self.old) (at self.new) reader result }
        ensures stands { StaysStanding stands AnyContents self.old self.new }
        ensures keeps { KeepsUnharmed at holds self.old self.new }
        ensures own { AddsOnly (IsOfReader (reading reader).reader) (at self.old) (at self.new) };

    /// What `holds` tells of the records, and that the cache does not sync.
    ghost at_rest: { (cache : Self) → holds cache → IsAtRest (at cache) };

    /// On a device that tells its content each vector lists what the records say.
    ghost vectors_listed: { (cache : Self) → holds cache → TellsAll (at cache).device
        → AreVectors (state_at (at cache)) };

    /// What stands is recorded as its document.
    ghost recorded: { (cache : Self) (contents : Contents) → holds cache → stands cache contents
        → TellsAll (at cache).device → AreRecordedAs contents (state_at (at cache)) };

    /// On a device that does not tell its content all stands.
    ghost where_told: { (cache : Self) (contents : Contents)
        → (TellsAll (at cache).device → stands cache contents) → stands cache contents };
}
