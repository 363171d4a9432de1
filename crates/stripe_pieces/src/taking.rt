// How pieces go before they are passed.
ghost use Rattle.std.specs.Prelude.{◌≡◌, ℕ, List, [], ◌∷◌, Some, IsSome};
ghost use Rattle.alternate_vector.specs.Alternates.{Stored};
ghost use Rattle.cyclone.specs.Cyclone.{SameButRows};
ghost use Rattle.cache_model.specs.State.{State, state_after, vector_piece};
ghost use Rattle.cache_model.specs.Verdict.{live_vector_of, vector_of};
ghost use Rattle.cache_model.specs.declared.record.Rec.TheVariants.{Committed, Damaged, Removed};
ghost use Rattle.held_pieces.specs.Held.{IsHeld};
ghost use Rattle.held_pieces.specs.Records.{IsWithout};
ghost use Rattle.cache_model.specs.Contents.{AnyContents};

use crate::{Pieces, records};
use alternate_vector::Vector;
use cache_chronicle::Chronicle;
use dir_table::Directory;
use logged_disk::Disk;
use tape_base::{Digest, Key, PieceId};

impl<D: Disk, R: Directory + Drop, C: Chronicle> Pieces<D, R, C> {
    ghost use Rattle.held_pieces.specs.Whereabouts.{live_place_of};
    ghost use Rattle.stripe_pieces.specs.Pieces.{ArePieces, seen_now, state_now};
    ghost use Rattle.stripe_pieces.specs.Calls.{AddsRecords, ArePrepared};

    /// Records that the bytes of a live piece are not its own, and takes its entry out.
    pub fn damage(&mut self, id: PieceId, place: u64, kept: Digest, found: Digest)
        requires ready { ArePrepared 1 0 self.old }
        requires live { live_place_of (state_now self.old) id ≡ Some place }
        ensures keeps { AddsRecords AnyContents (Damaged id place kept found ∷ []) 1 0 self.old self.new }
        ensures rest { SameButRows (seen_now self.old) (seen_now self.new) }
    {
        self.cyclone.take_out(id, place);
        records::damaged(&mut self.chronicle, id, place, kept, found);
    }

    /// Takes the entry of a piece out, where it is live. What is held then is what any state says
    /// that has the pieces without this one.
    fn take_entry(&mut self, id: PieceId)
        requires pieces { ArePieces self.old }
        ensures gone { (t : State) → IsWithout (state_now self.old) t id
            → IsHeld t (seen_now self.new) }
        ensures chronicle { self.new.chronicle ≡ self.old.chronicle }
        ensures rest { SameButRows (seen_now self.old) (seen_now self.new) }
    {
        if let Some(place) = self.whereabouts(id) {
            self.cyclone.take_out(id, place);
        }
    }

    /// Takes the vector of a key out, where that is not the put's own.
    fn take_earlier(&mut self, put: u64, key: Key)
        requires pieces { ArePieces self.old }
        ensures held { (length : ℕ) (list : List Stored)
            → IsHeld (state_after (state_now self.old) (Committed put key length list))
            (seen_now self.new) }
        ensures chronicle { self.new.chronicle ≡ self.old.chronicle }
        ensures rest { SameButRows (seen_now self.old) (seen_now self.new) }
    {
        match self.chronicle.vector_of(key) {
            Some(earlier) if earlier.put != put => self.take_entry(earlier),
            Some(_) => {}
            None => {}
        }
    }

    /// Records that a put of so many bytes is complete, and what its vector lists. The key's vector
    /// before it goes.
    pub fn commit(&mut self, put: u64, key: Key, length: u64, alternates: Vector)
        requires { ArePrepared 1 0 self.old }
        ensures { AddsRecords AnyContents (Committed put key length alternates ∷ []) 1 0 self.old
            self.new }
    {
        self.take_earlier(put, key);
        records::committed(&mut self.chronicle, put, key, length, alternates);
    }

    /// Records that a key's live vector was removed, takes it out, and gives its put.
    pub fn remove(&mut self, key: Key) -> u64
        requires ready { ArePrepared 1 0 self.old }
        requires live { IsSome (live_vector_of (state_now self.old) key) }
        ensures keeps { AddsRecords AnyContents (Removed result key ∷ []) 1 0 self.old self.new }
        ensures put { vector_of (state_now self.old) key ≡ Some (vector_piece key result) }
    {
        let vector = self.chronicle.vector_of(key).unwrap();
        self.take_entry(vector);
        records::removed(&mut self.chronicle, vector.put, key);
        vector.put
    }
}
