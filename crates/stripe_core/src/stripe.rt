// The stripe: its pieces, and who writes and reads them.
ghost use Rattle.std.specs.Prelude.{◌≡◌, ◌+◌, ◌≤◌, true, [], IfOk, IfErr, IfSome, if◌then◌else◌};
ghost use Rattle.tape_base.specs.Blocks.{blocks_of};
ghost use Rattle.tape_base.specs.Digest.{digest_of};
ghost use Rattle.tape_base.specs.Geometry.{budget_of};
ghost use Rattle.tape_base.specs.Place.{device_blocks_of};
ghost use Rattle.cache_model.specs.State.{floor_now};
ghost use Rattle.cache_model.specs.Kept.{all_of};
ghost use Rattle.cache_model.specs.Verdict.{payload_of_piece};
ghost use Rattle.cache_model.specs.Legal.{is_writing};
ghost use Rattle.piece_answers.specs.Find.{HasRoomFor};
ghost use Rattle.cache_model.specs.Contents.{contents_of_vectors};
ghost use Rattle.piece_answers.specs.Standing.{IsToldPlaced};
ghost use Rattle.piece_answers.specs.Place.{IsFragmentOf, IsPlacing, IsVectorFor};
ghost use Rattle.stripe_copies.specs.Format.{IsRefusedFormat};

use cache_answers::{Flushed, Refusal};
use cache_chronicle::Chronicle;
use dir_table::Directory;
use logged_disk::Disk;
use open_directory::OpenDirectory;
use piece_answers::{Ahead, Found, Placed};
use std::alloc::{AllocError, Global};
use stripe_actors::Actors;
use stripe_copies::FormatFault;
use stripe_pieces::Pieces;
use tape_base::{Digest, Geometry, PieceId, blocks_of};

/// The pieces on a device, the chronicle that tells of them, and the open writers and readers.
#[derive(Drop)]
pub struct Stripe<D: Disk, R: Directory + Drop, C: Chronicle> {
    alloc: Global,
    pub(crate) pieces: Pieces<D, R, C>,
    pub(crate) actors: Actors,
    ahead: Ahead,
    pub(crate) units: u32,
    pub(crate) flushes: u32,
}

impl<D: Disk, R: Directory + Drop, C: Chronicle> Stripe<D, R, C> {
    ghost use Rattle.held_pieces.specs.Whereabouts.{live_place_of};
    ghost use Rattle.stripe_core.specs.Stripe.{alloc_in, IsStripe, IsWanting, kept_in, seen_in, state_in};
    ghost use Rattle.stripe_core.specs.Between.{IsResting};
    ghost use Rattle.stripe_core.specs.Calls.{FindsInStripe, FlushesInStripe, HasTakenUnit, IsFormattedStripe, MakesRow, MakesUnits, PlacesFragmentInStripe, PlacesInStripe, PlacesVectorInStripe, PreparesStripe, RoomsInStripe, TakesUnit};

    /// Lays the device out, and begins a session on it. A refusal gives back the device and the
    /// chronicle.
    pub fn format(
        alloc: Global,
        disk: D,
        chronicle: C,
        g: Geometry,
    ) -> Result<Stripe<D, R, C>, (FormatFault, D, C)>
        requires sized { device_blocks_of g ≤ (D.state disk).size }
        requires empty { C.kept chronicle ≡ all_of [] }
        ensures formatted { IfOk result (IsFormattedStripe alloc g (D.state disk)) }
        ensures back { IfErr result (λ r.
            IsRefusedFormat g (D.state disk) (D.state r.1) r.0 × (C.kept r.2 ≡ all_of [])) }
    {
        let ahead = match Ahead::new(alloc, &g) {
            Ok(ahead) => ahead,
            Err(e) => return Err((FormatFault::Memory(e), disk, chronicle)),
        };
        match Pieces::format(alloc, disk, chronicle, g) {
            Ok(pieces) => Ok(Stripe {
                alloc,
                pieces,
                actors: Actors::new(alloc),
                ahead,
                units: 0,
                flushes: 0,
            }),
            Err((fault, disk, chronicle)) => Err((fault, disk, chronicle)),
        }
    }

    /// Gives the device and the chronicle back.
    pub fn into_parts(self) -> (D, C)
        ensures device { D.state result.0 ≡ (seen_in self).device }
        ensures records { C.kept result.1 ≡ kept_in self }
    {
        let Stripe { pieces, .. } = self;
        pieces.into_parts()
    }

    /// The allocator that the stripe was made with.
    pub fn alloc(&self) -> Global
        ensures { result ≡ alloc_in self.now }
    {
        self.alloc
    }

    pub fn chronicle(&self) -> &C
        ensures { C.kept result.now ≡ kept_in self.now }
    {
        self.pieces.chronicle()
    }

    pub fn disk(&self) -> &D
        ensures { D.state result.now ≡ (seen_in self.now).device }
    {
        self.pieces.cyclone.disk()
    }

    /// The directory, as the pieces use it.
    pub fn directory(&self) -> &R
        ensures stored { R.rows result.now ≡ (seen_in self.now).stored }
        ensures window { R.window result.now ≡ (seen_in self.now).window }
    {
        self.pieces.cyclone.directory()
    }

    pub fn geometry(&self) -> &Geometry
        requires { IsStripe self.now }
        ensures { result.now ≡ (state_in self.now).geometry }
    {
        self.pieces.cyclone.geometry()
    }

    /// Where the buffer begins.
    pub fn cursor(&self) -> u64
        requires { IsStripe self.now }
        ensures { result ≡ (state_in self.now).cursor }
    {
        self.pieces.cyclone.cursor()
    }

    /// The least place that may be read.
    pub fn floor(&self) -> u64
        requires { IsStripe self.now }
        ensures { result ≡ floor_now (state_in self.now) }
    {
        self.pieces.cyclone.floor()
    }

    /// How many blocks the buffer still takes.
    pub fn room(&self) -> u32
        requires { IsStripe self.now }
        ensures { let s = state_in self.now in result + s.filled ≡ s.geometry.agg }
    {
        self.pieces.cyclone.room()
    }

    pub fn open_directory(&self) -> &OpenDirectory
        ensures { result.now ≡ self.now.actors.held }
    {
        self.actors.open_directory()
    }

    /// The place of a live piece. It reads no device and takes no memory.
    pub fn whereabouts(&self, id: PieceId) -> Option<u64>
        requires { IsStripe self.now }
        ensures { result ≡ live_place_of (state_in self.now) id }
    {
        self.pieces.whereabouts(id)
    }

    /// The digest of the payload of a live fragment, as the records tell it. It reads no device and takes
    /// no memory.
    pub fn payload_of(&self, id: PieceId) -> Option<Digest>
        ensures { result ≡ payload_of_piece (state_in self.now) id }
    {
        self.pieces.chronicle().payload_of(id)
    }

    /// Writes the buffer out where it is not empty, begins the next one, and copies into it, within half
    /// a buffer, what the next floor passes of pieces that are pinned past `now` or that an open reader
    /// has still to be given.
    pub fn flush(&mut self, now: u64) -> Result<Flushed, Refusal>
        requires resting { IsResting self.old }
        ensures { FlushesInStripe now self.old self.new result }
    {
        self.take_unit()?;
        let cyclone = &self.pieces.cyclone;
        let writes = cyclone.next_place() > cyclone.cursor();
        self.flushes -= one_where(writes);
        match self.pieces.flush(now, &self.actors, &mut self.ahead) {
            Ok(flushed) => Ok(flushed),
            Err(stop) => Err(Refusal::from(stop)),
        }
    }

    /// Flushes where a piece with so many bytes of payload has no room.
    pub fn make_room(&mut self, bytes: u32, now: u64) -> Result<(), Refusal>
        requires resting { IsResting self.old }
        requires small { blocks_of bytes ≤ budget_of (state_in self.old).geometry }
        ensures { RoomsInStripe bytes now self.old self.new result }
    {
        if blocks_of(bytes) <= self.room() {
            return Ok(());
        }
        match self.flush(now) {
            Ok(_) => Ok(()),
            Err(why) => Err(why),
        }
    }

    /// Reads a live piece and brings its payload to the front of `into`, which has room for its blocks,
    /// or tells why there is none. Bytes that are not its own are recorded, and its entry goes.
    pub fn find_piece(&mut self, id: PieceId, into: &mut [u8]) -> Result<Found, AllocError>
        requires stripe { IsStripe self.old }
        requires into { HasRoomFor (state_in self.old) id into.old }
        ensures { FindsInStripe id self.old self.new result into.new }
    {
        self.take_unit()?;
        Ok(self.pieces.find(id, into))
    }

    /// Makes memory for so many calls, and for the next fragment of a put.
    pub fn prepare(&mut self, put: Option<u64>, units: u32) -> Result<(), AllocError>
        requires stripe { IsStripe self.old }
        requires open { IfSome put (λ n. is_writing (state_in self.old) n ≡ true) }
        ensures { PreparesStripe put units self.old self.new result }
    {
        self.make_row(put)?;
        self.make_units(units)
    }

    // Makes memory for the next fragment of a put.
    fn make_row(&mut self, put: Option<u64>) -> Result<(), AllocError>
        requires stripe { IsStripe self.old }
        requires open { IfSome put (λ n. is_writing (state_in self.old) n ≡ true) }
        ensures { MakesRow put self.old self.new result }
    {
        match put {
            Some(put) => self.actors.reserve_cut(put),
            None => Ok(()),
        }
    }

    /// Places a piece: the next fragment of an open put, behind a flush where it has no room, or a
    /// put's vector, for which there is room. Such a flush copies what is due at `now`.
    pub fn place_piece(
        &mut self,
        id: PieceId,
        pin: u64,
        start: u64,
        payload: &[u8],
        digest: Digest,
        now: u64,
    ) -> Result<Placed, Refusal>
        requires stripe { IsStripe self.old }
        requires placing { IsPlacing (state_in self.old) id pin start payload.now }
        requires digest { digest ≡ digest_of payload.now }
        // A vector spells what the records list, where the device tells its content.
        requires spelled { IsToldPlaced (seen_in self.old).device (state_in self.old) id start
            payload.now contents_of_vectors }
        ensures { PlacesInStripe R.purges id pin start payload.now now self.old self.new result }
    {
        self.take_unit()?;
        if id.index == 0 {
            self.place_vector(id, pin, start, payload, digest)
        } else {
            self.place_fragment(id, pin, start, payload, digest, now)
        }
    }

    fn place_vector(
        &mut self,
        id: PieceId,
        pin: u64,
        start: u64,
        payload: &[u8],
        digest: Digest,
    ) -> Result<Placed, Refusal>
        requires taken { HasTakenUnit self.old }
        requires kind { id.index ≡ 0 }
        requires digest { digest ≡ digest_of payload.now }
        requires spelled { IsToldPlaced (seen_in self.old).device (state_in self.old) id start
            payload.now contents_of_vectors }
        requires vector { IsVectorFor (state_in self.old) id start payload.now }
        ensures { PlacesVectorInStripe R.purges id pin start payload.now self.old self.new result }
    {
        match self.pieces.place(id, pin, start, payload, digest) {
            Ok(placed) => Ok(placed),
            Err(stop) => Err(Refusal::from(stop)),
        }
    }

    fn place_fragment(
        &mut self,
        id: PieceId,
        pin: u64,
        start: u64,
        payload: &[u8],
        digest: Digest,
        now: u64,
    ) -> Result<Placed, Refusal>
        requires taken { HasTakenUnit self.old }
        requires fragment { IsFragmentOf (state_in self.old) id pin start payload.now }
        requires digest { digest ≡ digest_of payload.now }
        ensures { PlacesFragmentInStripe R.purges id pin start payload.now now self.old self.new
            result }
    {
        self.actors.reserve_cut(id.put)?;
        let writes = blocks_of(payload.len() as u32) > self.pieces.cyclone.room();
        self.flushes -= one_where(writes);
        let pieces = &mut self.pieces;
        match pieces.place_fragment(
            id,
            pin,
            start,
            payload,
            digest,
            now,
            &self.actors,
            &mut self.ahead,
        ) {
            Ok(placed) => {
                self.actors
                    .cut(id.put, payload.len() as u32, placed.payload);
                Ok(placed)
            }
            Err(stop) => Err(Refusal::from(stop)),
        }
    }

    // Uses up a unit of memory, and makes one where there is none.
    pub(crate) fn take_unit(&mut self) -> Result<(), AllocError>
        requires { IsStripe self.old }
        ensures { TakesUnit self.old self.new result }
    {
        self.make_units(1)?;
        self.units -= 1;
        Ok(())
    }

    // Makes memory for so many calls.
    fn make_units(&mut self, units: u32) -> Result<(), AllocError>
        requires { IsStripe self.old }
        ensures { MakesUnits units self.old self.new result }
    {
        if units > self.units {
            let flushes = self.flushes.max(units);
            self.actors.reserve_readers(units)?;
            self.pieces.prepare(units, flushes)?;
            self.units = units;
            self.flushes = flushes;
        }
        Ok(())
    }
}

// One where something is so, and else none.
fn one_where(is_so: bool) -> u32
    ensures { result ≡ (if is_so then 1 else 0) }
{
    if is_so { 1 } else { 0 }
}
