// How a piece is placed behind those of the buffer.
ghost use Rattle.std.specs.Prelude.{◌≡◌, ◌+◌, ◌*◌, true, length, OnOk};
ghost use Rattle.tape_base.specs.Digest.{digest_of};
ghost use Rattle.tape_base.specs.Geometry.{budget_of};
ghost use Rattle.cache_model.specs.Room.{doc_at, has_room};
ghost use Rattle.dir_table.specs.Displacement.{purge_of};
ghost use Rattle.cache_model.specs.Due.{most_passed};
ghost use Rattle.piece_answers.specs.Standing.{IsToldPlaced};
ghost use Rattle.piece_answers.specs.Place.{CutsAsAsked, HasBufferRoom, IsFragmentOf, IsNewPiece, PlacesIn, PutsIn};

use crate::{Pieces, records};
use cache_chronicle::Chronicle;
use dir_table::Directory;
use doc_header::Doc;
use logged_disk::Disk;
use piece_answers::{Ahead, Placed, Stop};
use stripe_actors::Actors;
use tape_base::{Digest, LIMIT, PieceId, blocks_of};

impl<D: Disk, R: Directory + Drop, C: Chronicle> Pieces<D, R, C> {
    ghost use Rattle.stripe_pieces.specs.Pieces.{kept_now, seen_now, state_now};
    ghost use Rattle.stripe_pieces.specs.Calls.{ArePrepared, AsksNoDevice, FlushesAtMost, MayBeFlushed};

    /// Cuts the next fragment of a put and places it, behind a flush where it has no room.
    pub fn place_fragment(
        &mut self,
        id: PieceId,
        pin: u64,
        start: u64,
        payload: &[u8],
        digest: Digest,
        now: u64,
        actors: &Actors,
        ahead: &mut Ahead,
    ) -> Result<Placed, Stop>
        requires ready { let g = (state_now self.old).geometry in
            MayBeFlushed (2 * most_passed g + 3 + purge_of g) (budget_of g + 1) actors.now ahead.old
            self.old }
        requires new { IsNewPiece (state_now self.old) id payload.now }
        requires fragment { IsFragmentOf (state_now self.old) id pin start payload.now }
        requires digest { digest ≡ digest_of payload.now }
        ensures keeps { let g = (seen_now self.old).geometry in FlushesAtMost
            (λ contents. OnOk result (IsToldPlaced (seen_now self.new).device
            (state_now self.old) id start payload.now contents))
            (has_room (state_now self.old) (length payload.now) ≡ true)
            (2 * most_passed g + 3 + purge_of g) (budget_of g + 1) ahead.new self.old self.new }
        ensures does { CutsAsAsked R.purges now (kept_now self.old) (kept_now self.new)
            (seen_now self.old).device.past
            (seen_now self.new).device id pin start payload.now result }
    {
        match self.make_room(payload.len() as u32, now, actors, ahead) {
            Ok(()) => self.place(id, pin, start, payload, digest),
            Err(why) => Err(why),
        }
    }

    /// Places a piece that has room, unless it would end at the limit.
    pub fn place(
        &mut self,
        id: PieceId,
        pin: u64,
        start: u64,
        payload: &[u8],
        digest: Digest,
    ) -> Result<Placed, Stop>
        requires ready { ArePrepared (2 + purge_of (state_now self.old).geometry) 1 self.old }
        requires fits { HasBufferRoom (state_now self.old) id payload.now }
        requires digest { digest ≡ digest_of payload.now }
        ensures keeps { AsksNoDevice
            (λ contents. OnOk result (IsToldPlaced (seen_now self.new).device
            (state_now self.old) id start payload.now contents))
            (2 + purge_of (seen_now self.old).geometry) 1 self.old self.new }
        ensures places { PlacesIn R.purges (kept_now self.old) (kept_now self.new) id pin start
            payload.now result }
    {
        let place = self.cyclone.next_place();
        let end = place + blocks_of(payload.len() as u32) as u64;
        if end >= LIMIT {
            return Err(Stop::Exhausted { number: end });
        }
        let doc = Doc {
            id,
            place,
            generation: self.cyclone.geometry().generation,
            pin,
            start,
        };
        self.put(&doc, payload, digest);
        Ok(Placed {
            place,
            payload: digest,
        })
    }

    fn put(&mut self, doc: &Doc, payload: &[u8], digest: Digest)
        requires ready { ArePrepared (2 + purge_of (state_now self.old).geometry) 1 self.old }
        requires fits { HasBufferRoom (state_now self.old) doc.now.id payload.now }
        requires doc { let d = doc.now in d ≡ doc_at (state_now self.old) d.id d.pin d.start }
        requires digest { digest ≡ digest_of payload.now }
        ensures keeps { let d = doc.now in AsksNoDevice (IsToldPlaced (seen_now self.new).device
            (state_now self.old) d.id d.start payload.now)
            (2 + purge_of (seen_now self.old).geometry) 1 self.old self.new }
        ensures puts { let d = doc.now in
            PutsIn R.purges (kept_now self.old) (kept_now self.new) d.id d.pin d.start payload.now }
    {
        let length = payload.len() as u32;
        let document = self.cyclone.put(doc, payload, &digest);
        // Behind what it displaced it has a slot.
        self.cyclone.rows_fit();
        records::cut(&mut self.chronicle, doc.id, length, digest);
        records::displaced(&mut self.chronicle, self.cyclone.displaced());
        records::placed(&mut self.chronicle, doc, blocks_of(length), document);
    }
}
