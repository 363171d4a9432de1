// What a flush copies ahead of the cursor: what was looked at before the buffer is written is told of
// behind that, and copied into the next buffer.
ghost use Rattle.std.specs.Prelude.{◌≡◌, ◌+◌, false, true, [], ◌∷◌, ◌++◌, length};
ghost use Rattle.cache_model.specs.Contents.{AnyContents};
ghost use Rattle.cache_model.specs.State.{cursor_next, floor_next};
ghost use Rattle.cache_model.specs.declared.record.Rec.TheVariants.{Began, Fault};
ghost use Rattle.logged_disk.specs.Device.{TellsAll};
ghost use Rattle.stripe_pieces.specs.Copying.{AreCopyable, AreTellable, AreToldCopied, IsCopyable, IsCopyableWhereCopied, IsTellable, IsToldCopied, IsToldRow, begun_behind, blocks_for, copied_by, copied_of, copied_record, copies_among, copies_by, done_records, left_records, told_of_piece, told_of_pieces};
ghost use Rattle.piece_answers.specs.declared.answer.Stop.TheVariants.{DeviceFault};

use crate::{Pieces, records};
use cache_chronicle::Chronicle;
use dir_table::Directory;
use evacuator::Candidate;
use logged_disk::Disk;
use piece_answers::{Ahead, Fate, Stop};
use tape_base::BLOCK;

impl<D: Disk, R: Directory + Drop, C: Chronicle> Pieces<D, R, C> {
    ghost use Rattle.stripe_pieces.specs.Pieces.{seen_now, state_now};
    ghost use Rattle.stripe_pieces.specs.Calls.{AddsRecords, ArePrepared, IsWrittenBefore, TellsOf};

    /// Behind a buffer that was written: tells what is not copied, begins the next buffer, and copies
    /// what was read into it.
    pub(crate) fn go_on(&mut self, next: u64, ahead: &Ahead)
        requires ready { ArePrepared
            (length (told_of_pieces true ahead.now.due.items ahead.now.fates.items) + 1
            + copies_among ahead.now.fates.items) (copies_among ahead.now.fates.items) self.old }
        requires out { IsWrittenBefore next self.old }
        requires told { AreTellable true (state_now self.old)
            (seen_now self.old).device.faults ahead.now.due.items ahead.now.fates.items }
        requires copied { AreCopyable R.purges (begun_behind (state_now self.old)
            (told_of_pieces true ahead.now.due.items ahead.now.fates.items)) 0 ahead.now.due.items
            ahead.now.fates.items ahead.now.bytes.items }
        ensures { AddsRecords (λ contents. TellsAll (seen_now self.old).device
            → AreToldCopied contents (begun_behind (state_now self.old)
            (told_of_pieces true ahead.now.due.items ahead.now.fates.items)) 0 ahead.now.due.items
            ahead.now.fates.items ahead.now.bytes.items)
            (done_records (state_now self.old) ahead.now.due.items ahead.now.fates.items
            ahead.now.bytes.items)
            (length (told_of_pieces true ahead.now.due.items ahead.now.fates.items) + 1
            + copies_among ahead.now.fates.items) (copies_among ahead.now.fates.items)
            self.old self.new }
    {
        self.tell(ahead, true);
        self.begin(next);
        self.copy(ahead);
    }

    // The next buffer begins, and that is recorded.
    fn begin(&mut self, next: u64)
        requires ready { ArePrepared 1 0 self.old }
        requires out { IsWrittenBefore next self.old }
        ensures { let s = state_now self.old in
            AddsRecords AnyContents (Began (cursor_next s) (floor_next s) ∷ []) 1 0 self.old self.new }
    {
        self.cyclone.begin_next();
        records::began(&mut self.chronicle, next, self.cyclone.floor());
    }

    /// Behind a buffer that the device refused: tells of damage and of faults, this one the last.
    pub(crate) fn stop(&mut self, ahead: &Ahead) -> Stop
        requires ready { ArePrepared
            (length (told_of_pieces false ahead.now.due.items ahead.now.fates.items) + 1) 0 self.old }
        requires told { AreTellable false (state_now self.old)
            (seen_now self.old).device.faults ahead.now.due.items ahead.now.fates.items }
        ensures keeps { AddsRecords AnyContents
            (told_of_pieces false ahead.now.due.items ahead.now.fates.items ++ Fault
            (seen_now self.old).device.faults ∷ [])
            (length (told_of_pieces false ahead.now.due.items ahead.now.fates.items) + 1) 0
            self.old self.new }
        ensures why { result ≡ DeviceFault (seen_now self.old).device.faults }
    {
        let count = self.cyclone.disk().faults();
        self.tell(ahead, false);
        records::fault(&mut self.chronicle, count);
        Stop::DeviceFault { count }
    }

    // Records what came of each piece that is not copied; that it is not saved only of a flush that is
    // done.
    fn tell(&mut self, ahead: &Ahead, done: bool)
        requires ready { ArePrepared
            (length (told_of_pieces done ahead.now.due.items ahead.now.fates.items)) 0 self.old }
        requires told { AreTellable done (state_now self.old)
            (seen_now self.old).device.faults ahead.now.due.items ahead.now.fates.items }
        ensures { TellsOf (told_of_pieces done ahead.now.due.items ahead.now.fates.items)
            self.old self.new }
    {
        for i in 0..ahead.due.len() {
            self.tell_of(ahead.due[i], ahead.fates[i], done);
        }
    }

    fn tell_of(&mut self, candidate: Candidate, fate: Fate, done: bool)
        requires ready { ArePrepared (length (told_of_piece done candidate fate)) 0 self.old }
        requires told { IsTellable (state_now self.old)
            (seen_now self.old).device.faults candidate fate }
        ensures { TellsOf (told_of_piece done candidate fate) self.old self.new }
    {
        let Candidate { id, place, .. } = candidate;
        match fate {
            Fate::NoRoom => self.leave(candidate, false, done),
            Fate::Copied { .. } => {}
            Fate::Spoiled { kept, found } => self.damage(id, place, kept, found),
            Fate::Refused { count } => {
                records::fault(&mut self.chronicle, count);
                self.leave(candidate, true, done);
            }
        }
    }

    fn leave(&mut self, candidate: Candidate, fault: bool, done: bool)
        requires { ArePrepared (length (left_records done candidate fault)) 0 self.old }
        ensures keeps { TellsOf (left_records done candidate fault) self.old self.new }
        ensures cyclone { self.new.cyclone ≡ self.old.cyclone }
    {
        if done {
            records::unsaved(&mut self.chronicle, candidate.id, candidate.place, fault);
        }
    }

    // Copies the documents that stand in memory into the buffer.
    fn copy(&mut self, ahead: &Ahead)
        requires ready { ArePrepared (copies_among ahead.now.fates.items)
            (copies_among ahead.now.fates.items) self.old }
        requires copied { AreCopyable R.purges (state_now self.old) 0 ahead.now.due.items
            ahead.now.fates.items ahead.now.bytes.items }
        ensures { AddsRecords (λ contents. TellsAll (seen_now self.old).device
            → AreToldCopied contents (state_now self.old) 0 ahead.now.due.items
            ahead.now.fates.items ahead.now.bytes.items)
            (copied_of (state_now self.old) 0 ahead.now.due.items ahead.now.fates.items
            ahead.now.bytes.items) (copies_among ahead.now.fates.items)
            (copies_among ahead.now.fates.items) self.old self.new }
    {
        let mut at = 0;
        for i in 0..ahead.due.len() {
            let candidate = ahead.due[i];
            let end = at + taken_by(candidate, ahead.fates[i]);
            self.copy_one(
                candidate,
                ahead.fates[i],
                &ahead.bytes[at * BLOCK..end * BLOCK],
            );
            at = end;
        }
    }

    // Copies a piece, where its document was read and is its own.
    fn copy_one(&mut self, candidate: Candidate, fate: Fate, bytes: &[u8])
        requires ready { ArePrepared (copies_by fate) (copies_by fate) self.old }
        requires copied { IsCopyableWhereCopied R.purges (state_now self.old) candidate fate bytes.now }
        ensures { AddsRecords (λ contents. TellsAll (seen_now self.old).device
            → IsToldCopied contents (state_now self.old) candidate fate bytes.now)
            (copied_by (state_now self.old) candidate fate bytes.now) (copies_by fate)
            (copies_by fate) self.old self.new }
    {
        match fate {
            Fate::Copied { pinned } => self.move_here(candidate, pinned, bytes),
            Fate::NoRoom => {}
            Fate::Spoiled { .. } => {}
            Fate::Refused { .. } => {}
        }
    }

    fn move_here(&mut self, candidate: Candidate, pinned: bool, bytes: &[u8])
        requires ready { ArePrepared 1 1 self.old }
        requires copied { IsCopyable R.purges (state_now self.old) candidate bytes.now }
        ensures { AddsRecords (λ contents. TellsAll (seen_now self.old).device
            → IsToldRow contents (state_now self.old) candidate bytes.now)
            (copied_record (state_now self.old) candidate bytes.now ∷ []) 1 1 self.old self.new }
    {
        let Candidate {
            id,
            place: from,
            ..
        } = candidate;
        let place = self.cyclone.next_place();
        let digest = self.cyclone.move_piece(id, from, pinned, bytes);
        records::moved(&mut self.chronicle, id, from, place, digest);
    }
}

// How many blocks of memory a piece takes.
fn taken_by(candidate: Candidate, fate: Fate) -> usize
    ensures { result ≡ blocks_for candidate fate }
{
    match fate {
        Fate::NoRoom => 0,
        _ => candidate.blocks as usize,
    }
}
