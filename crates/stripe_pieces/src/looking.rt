// What a flush is to copy ahead of the cursor is found, and what the budget keeps of it is read into
// memory.
ghost use Rattle.std.specs.Prelude.{◌≡◌, ◌*◌, ◌≤◌, ◌<◌, ℕ, List, length, take};
ghost use Rattle.tape_base.specs.Geometry.{budget_of};
ghost use Rattle.evacuator.specs.Choice.{CandidatesRise, IsChoice, blocks_of_all};
ghost use Rattle.cache_model.specs.State.{Row};
ghost use Rattle.stripe_actors.specs.Actors.{AreActors};
ghost use Rattle.cache_model.specs.Due.{candidate_of};
ghost use Rattle.piece_answers.specs.Ahead.{IsMadeFor, LooksAhead};
ghost use Rattle.piece_answers.specs.Looks.{AreOfRows, Comes, HasCandidates, HasLookedAhead, HasRow, IsJudgedAs, IsNextToLook, LooksAt, MayBeCopied, StaysMade};

use crate::Pieces;
use crate::finding::load;
use cache_chronicle::Chronicle;
use dir_table::Directory;
use doc_header::document_digest;
use evacuator::{Candidate, choose};
use logged_disk::Disk;
use piece_answers::{Ahead, Fate};
use stripe_actors::Actors;
use stripe_due::find_due;
use tape_base::BLOCK;

impl<D: Disk, R: Directory + Drop, C: Chronicle> Pieces<D, R, C> {
    ghost use Rattle.stripe_pieces.specs.Pieces.{ArePieces, seen_now, state_now};
    ghost use Rattle.stripe_pieces.specs.Calls.{OnlyReads};

    /// Finds what is due at a moment, and reads what the budget keeps of it.
    pub(crate) fn look_ahead(&mut self, now: u64, actors: &Actors, ahead: &mut Ahead)
        requires pieces { ArePieces self.old }
        requires actors { AreActors (state_now self.old) actors.now }
        requires ahead { IsMadeFor (state_now self.old).geometry ahead.old }
        ensures keeps { OnlyReads self.old self.new }
        ensures ahead { IsMadeFor (state_now self.old).geometry ahead.new }
        ensures looks { LooksAhead now (state_now self.old) (seen_now self.old).device
            (seen_now self.new).device ahead.new }
    {
        let next = self.cyclone.next_floor();
        let budget = self.cyclone.geometry().agg / 2;
        find_due(
            &self.chronicle,
            actors,
            self.cyclone.floor(),
            next,
            now,
            &mut ahead.due,
        );
        mark_kept(&ahead.due, budget, &mut ahead.kept);
        self.read_kept(ahead);
    }

    // Reads the pieces that are kept, one behind the other into memory, and notes what came of each.
    fn read_kept(&mut self, ahead: &mut Ahead)
        requires pieces { ArePieces self.old }
        requires candidates { HasCandidates (state_now self.old) ahead.old }
        requires choice { IsChoice (budget_of (state_now self.old).geometry)
            (blocks_of_all ahead.old.due.items)
            (take (length ahead.old.due.items) ahead.old.kept.items) }
        ensures keeps { OnlyReads self.old self.new }
        ensures made { StaysMade (state_now self.old).geometry ahead.old ahead.new }
        ensures looked { (rows : List Row) → AreOfRows (state_now self.old) ahead.old.due.items rows
            → (end : ℕ) × HasLookedAhead (state_now self.old) (seen_now self.old).device
            (seen_now self.new).device rows end ahead.new }
    {
        ahead.fates.clear();
        let mut at = 0;
        for i in 0..ahead.due.len() {
            at = self.look_at(i, at, ahead);
        }
    }

    // Reads a piece behind those before it, if it is kept, and notes what came of it.
    fn look_at(&mut self, i: usize, at: usize, ahead: &mut Ahead) -> usize
        requires pieces { ArePieces self.old }
        requires candidates { HasCandidates (state_now self.old) ahead.old }
        requires next { IsNextToLook (state_now self.old) i at ahead.old }
        ensures keeps { OnlyReads self.old self.new }
        ensures made { StaysMade (state_now self.old).geometry ahead.old ahead.new }
        ensures looks { LooksAt (state_now self.old) (seen_now self.old).device
            (seen_now self.new).device i at result ahead.old ahead.new }
    {
        if !ahead.kept[i] {
            ahead.fates.push(Fate::NoRoom).unwrap();
            return at;
        }
        let candidate = ahead.due[i];
        let end = at + candidate.blocks as usize;
        let fate = self.read_ahead(candidate, &mut ahead.bytes[at * BLOCK..end * BLOCK]);
        ahead.fates.push(fate).unwrap();
        end
    }

    // Reads a piece that is to be copied, and compares it with its digest.
    fn read_ahead(&mut self, candidate: Candidate, into: &mut [u8]) -> Fate
        requires pieces { ArePieces self.old }
        requires row { HasRow (state_now self.old) candidate }
        requires into { length into.old ≡ 512 * candidate.blocks }
        ensures keeps { OnlyReads self.old self.new }
        ensures comes { (row : Row) → candidate ≡ candidate_of row
            → MayBeCopied (state_now self.old) row
            → Comes (state_now self.old) (seen_now self.old).device
            (seen_now self.new).device row result into.new }
    {
        match load(&mut self.cyclone, candidate.place, candidate.blocks, into) {
            Ok(()) => self.compare(candidate, into),
            Err(_) => Fate::Refused {
                count: self.cyclone.disk().faults(),
            },
        }
    }

    fn compare(&self, candidate: Candidate, bytes: &[u8]) -> Fate
        requires row { HasRow (state_now self.now) candidate }
        requires some { 0 < length bytes.now }
        ensures { (row : Row) → candidate ≡ candidate_of row → MayBeCopied (state_now self.now) row
            → IsJudgedAs row bytes.now result }
    {
        let piece = self.chronicle.live_of(candidate.id).unwrap();
        let found = document_digest(bytes);
        if found == piece.digest {
            Fate::Copied {
                pinned: piece.pin != 0,
            }
        } else {
            Fate::Spoiled {
                kept: piece.digest,
                found,
            }
        }
    }
}

// Marks in front of `kept` which of the pieces the budget keeps.
fn mark_kept(due: &[Candidate], budget: u32, kept: &mut [bool])
    requires rising { CandidatesRise due.now }
    requires few { length due.now ≤ length kept.old }
    ensures choice { IsChoice budget (blocks_of_all due.now) (take (length due.now) kept.new) }
{
    choose(due, budget, &mut kept[..due.len()]);
}
