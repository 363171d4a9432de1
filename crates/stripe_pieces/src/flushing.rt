// How the buffer is written out, and room made for a piece.
ghost use Rattle.std.specs.Prelude.{◌≡◌, ◌+◌, ◌*◌, ◌≤◌, true};
ghost use Rattle.tape_base.specs.Blocks.{blocks_of};
ghost use Rattle.tape_base.specs.Geometry.{budget_of};
ghost use Rattle.cache_model.specs.State.{floor_now};
ghost use Rattle.cache_model.specs.Legal.{IsQuiet};
ghost use Rattle.cache_model.specs.Room.{has_room};
ghost use Rattle.cache_model.specs.Contents.{AnyContents};
ghost use Rattle.cache_model.specs.Due.{most_passed};
ghost use Rattle.piece_answers.specs.Flush.{AnswersFlush, FlushesAsAsked, WritesNothing};
ghost use Rattle.piece_answers.specs.Place.{AnswersRoom, RoomsAsAsked};

use crate::{Pieces, records};
use cache_answers::Flushed;
use cache_chronicle::Chronicle;
use dir_table::Directory;
use logged_disk::Disk;
use piece_answers::{Ahead, Stop};
use stripe_actors::Actors;
use tape_base::{LIMIT, blocks_of};

// No piece that is placed or copied ends at the limit: a buffer is written out only where the half of
// the next one that takes the copies ends below it.
impl<D: Disk, R: Directory + Drop, C: Chronicle> Pieces<D, R, C> {
    ghost use Rattle.stripe_pieces.specs.Pieces.{ArePieces, kept_now, seen_now, state_now};
    ghost use Rattle.stripe_pieces.specs.Calls.{FlushesAtMost, MayBeFlushed};

    /// Writes the buffer out where it is not empty, begins the next one, and copies into it what is
    /// due at a moment. What is due is read before the buffer is written.
    pub fn flush(&mut self, now: u64, actors: &Actors, ahead: &mut Ahead) -> Result<Flushed, Stop>
        requires ready { let g = (state_now self.old).geometry in
            MayBeFlushed (2 * most_passed g + 1) (budget_of g) actors.now ahead.old self.old }
        requires quiet { IsQuiet (state_now self.old) }
        ensures keeps { let g = (seen_now self.old).geometry in
            FlushesAtMost AnyContents (WritesNothing (state_now self.old)) (2 * most_passed g + 1)
            (budget_of g) ahead.new self.old self.new }
        ensures does { FlushesAsAsked now (kept_now self.old) (kept_now self.new)
            (seen_now self.old).device.past (seen_now self.new).device result }
        ensures answers { AnswersFlush (state_now self.old) (state_now self.new)
            (seen_now self.new).device.faults result }
    {
        let blocks = (self.cyclone.next_place() - self.cyclone.cursor()) as u32;
        if blocks == 0 {
            return Ok(self.flushed(blocks));
        }
        let next = self.cyclone.next_cursor();
        let end = next + (self.cyclone.geometry().agg / 2) as u64;
        if end >= LIMIT {
            return Err(Stop::Exhausted { number: end });
        }
        self.look_ahead(now, actors, ahead);
        // Each copy has a slot, where entries may displace others.
        self.cyclone.rows_fit();
        match self.cyclone.write_out() {
            Ok(()) => {
                self.go_on(next, ahead);
                Ok(self.flushed(blocks))
            }
            Err(_) => Err(self.stop(ahead)),
        }
    }

    fn flushed(&self, blocks: u32) -> Flushed
        requires { ArePieces self.now }
        ensures blocks { result.blocks ≡ blocks }
        ensures cursor { result.cursor ≡ (state_now self.now).cursor }
        ensures floor { result.floor ≡ floor_now (state_now self.now) }
    {
        Flushed {
            blocks,
            cursor: self.cyclone.cursor(),
            floor: self.cyclone.floor(),
        }
    }

    /// Flushes where a piece with so many bytes of payload has no room.
    pub fn make_room(
        &mut self,
        bytes: u32,
        now: u64,
        actors: &Actors,
        ahead: &mut Ahead,
    ) -> Result<(), Stop>
        requires ready { let g = (state_now self.old).geometry in
            MayBeFlushed (2 * most_passed g + 1) (budget_of g) actors.now ahead.old self.old }
        requires quiet { IsQuiet (state_now self.old) }
        requires small { blocks_of bytes ≤ budget_of (state_now self.old).geometry }
        ensures keeps { let g = (seen_now self.old).geometry in
            FlushesAtMost AnyContents (has_room (state_now self.old) bytes ≡ true)
            (2 * most_passed g + 1) (budget_of g) ahead.new self.old self.new }
        ensures does { RoomsAsAsked now (kept_now self.old) (kept_now self.new)
            (seen_now self.old).device.past (seen_now self.new).device bytes result }
        ensures answers { AnswersRoom (state_now self.old) (state_now self.new)
            (seen_now self.new).device.faults bytes result }
    {
        if blocks_of(bytes) <= self.cyclone.room() {
            return Ok(());
        }
        match self.flush(now, actors, ahead) {
            Ok(_) => Ok(()),
            Err(why) => Err(why),
        }
    }
}
