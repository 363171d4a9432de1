// How writers and readers come and go.
ghost use Rattle.std.specs.Prelude.{◌≡◌, ◌+◌, ◌≤◌, ◌<◌, ◌^◌, [], ◌∷◌, IsSome, IsOk, IfOk, IfSome, OnErr};
ghost use Rattle.cache_model.specs.declared.record.Rec.TheVariants as rec;
ghost use Rattle.cache_model.specs.Legal.{IsQuiet, answer_record};
ghost use Rattle.cache_model.specs.Verdict.{live_vector_of};
ghost use Rattle.cache_model.specs.State.{State};
ghost use Rattle.stripe_actors.specs.Actors.{AreActors, reader_room_of};
ghost use Rattle.stripe_actors.specs.Calls.{HasPutNumber, KeepUpWith, StayInStep};
ghost use Rattle.stripe_answers.specs.Acts.{AnswersLookup, CommitsAsAsked, EndsReadAsAsked, GivesUpAsAsked, IsCommitting, IsFollowable, IsGivable, IsGivingUp, IsRefusedPut, NotesAsAsked, RefusesAsAsked, RemovesAsAsked, committed_record};

use crate::Stripe;
use alternate_vector::{Fields, Vector};
use cache_answers::Refusal;
use cache_chronicle::Chronicle;
use cache_model::{NextAnswer, ReadAnswer};
use dir_table::Directory;
use logged_disk::Disk;
use std::alloc::AllocError;
use stripe_actors::{Actors, OpenPutRefusal};
use stripe_pieces::{records, records_of};
use tape_base::{Actor, Digest, Key, LIMIT, MAX_WRITERS, PieceId};

// How many writers may be open.
impl<D: Disk, R: Directory + Drop, C: Chronicle> Stripe<D, R, C> {
    ghost use Rattle.held_pieces.specs.Whereabouts.{live_place_of};
    ghost use Rattle.stripe_core.specs.Stripe.{IsStripe, state_in, units_in};
    ghost use Rattle.stripe_core.specs.Between.{IsResting};
    ghost use Rattle.stripe_core.specs.Calls.{AddsInStripe, MarksInStripe, OpensPutInStripe, StartsReadInStripe};

    /// Commits a put, whose vector is the piece that was placed last and lists these alternates.
    /// The key's vector before it goes.
    pub fn commit(&mut self, put: u64, key: Key, alternates: Vector)
        requires stripe { IsStripe self.old }
        requires unit { 1 ≤ units_in self.old }
        requires committing { IsCommitting (state_in self.old) put key }
        ensures { AddsInStripe (committed_record (state_in self.old) put key alternates ∷ [])
            (CommitsAsAsked (state_in self.old) put key alternates) self.old self.new }
    {
        let length = self.actors.open_directory().length(put);
        self.pieces.commit(put, key, length, alternates);
        self.actors.close(put);
        self.units -= 1;
    }

    /// Gives a put up that is open.
    pub fn give_up(&mut self, put: u64, key: Key)
        requires stripe { IsStripe self.old }
        requires unit { 1 ≤ units_in self.old }
        requires writing { IsGivingUp (state_in self.old) put key }
        ensures { AddsInStripe (rec.Aborted put key ∷ [])
            (GivesUpAsAsked (state_in self.old) put key) self.old self.new }
    {
        records::aborted(&mut self.pieces.chronicle, put, key);
        self.actors.abort(put);
        self.units -= 1;
    }

    /// Takes a key's live vector out, and gives its put.
    pub fn take_out(&mut self, key: Key) -> u64
        requires resting { IsResting self.old }
        requires unit { 1 ≤ units_in self.old }
        requires live { IsSome (live_vector_of (state_in self.old) key) }
        ensures { AddsInStripe (rec.Removed result key ∷ [])
            (RemovesAsAsked (state_in self.old) key result) self.old self.new }
    {
        let put = self.pieces.remove(key);
        self.units -= 1;
        put
    }

    /// Records that the payload of a live piece, which was found in this step, is not its own, and
    /// takes its entry out.
    pub fn mark_damaged(&mut self, id: PieceId, kept: Digest, found: Digest)
        requires stripe { IsStripe self.old }
        requires unit { 1 ≤ units_in self.old }
        requires live { IsSome (live_place_of (state_in self.old) id) }
        ensures { MarksInStripe id kept found self.old self.new }
    {
        let place = self.pieces.whereabouts(id).unwrap();
        self.pieces.damage(id, place, kept, found);
        self.units -= 1;
    }

    /// Records what a reader was answered, which goes on behind a fragment that it was given.
    pub fn note(&mut self, reader: u64, answer: NextAnswer)
        requires stripe { IsStripe self.old }
        requires unit { 1 ≤ units_in self.old }
        requires few { IsGivable answer }
        ensures { AddsInStripe (answer_record reader answer ∷ []) (NotesAsAsked reader answer)
            self.old self.new }
    {
        records::answered(&mut self.pieces.chronicle, reader, answer);
        go_on(&mut self.actors, reader, answer);
        self.units -= 1;
    }

    /// Closes a reader.
    pub fn end_read(&mut self, reader: u64)
        requires stripe { IsStripe self.old }
        requires unit { 1 ≤ units_in self.old }
        ensures { AddsInStripe (rec.ReadClosed reader ∷ [])
            (EndsReadAsAsked (state_in self.old) reader) self.old self.new }
    {
        records::read_closed(&mut self.pieces.chronicle, reader);
        self.actors.close_reader(reader);
        self.units -= 1;
    }

    /// Records the answer of a lookup, and opens the reader that it gives.
    pub fn start_read(
        &mut self,
        actor: Actor,
        key: Key,
        request: Fields,
        answer: ReadAnswer,
    ) -> Result<u64, AllocError>
        requires stripe { IsStripe self.old }
        requires follows { IsFollowable (state_in self.old) answer }
        ensures { StartsReadInStripe actor key request answer self.old self.new result }
    {
        self.take_unit()?;
        // The count is read for what it tells of the numbers.
        let _count = self.pieces.chronicle.count();
        let reader = answer_lookup(&mut self.actors, answer)?;
        records::read_opened(
            &mut self.pieces.chronicle,
            reader,
            actor,
            key,
            request,
            answer,
        );
        Ok(reader)
    }

    /// Why no put can be opened now; there is no other reason but want of memory.
    pub fn put_refusal(&self) -> Option<Refusal>
        requires { IsStripe self.now }
        ensures why { IsRefusedPut (state_in self.now) result }
        ensures does { IsQuiet (state_in self.now)
            → IfSome result (RefusesAsAsked (state_in self.now)) }
    {
        put_refusal(&self.actors)
    }

    /// Takes the next put's number, and opens its writer.
    pub fn start_put(
        &mut self,
        actor: Actor,
        key: Key,
        request: Fields,
        response: Fields,
        pin: u64,
    ) -> Result<u64, Refusal>
        requires resting { IsResting self.old }
        ensures { OpensPutInStripe actor key request response pin self.old self.new result }
    {
        match put_refusal(&self.actors) {
            Some(refusal) => Err(refusal),
            None => self.open_put(actor, key, request, response, pin),
        }
    }

    fn open_put(
        &mut self,
        actor: Actor,
        key: Key,
        request: Fields,
        response: Fields,
        pin: u64,
    ) -> Result<u64, Refusal>
        requires resting { IsResting self.old }
        requires number { HasPutNumber (state_in self.old) }
        ensures { OpensPutInStripe actor key request response pin self.old self.new result }
    {
        let kept_request = request.copy()?;
        let kept_response = response.copy()?;
        // Its record stands beside those of the calls that memory is made for.
        let most = records_of(self.pieces.cyclone.geometry(), self.units);
        self.pieces.chronicle.reserve(most + 1)?;
        match self.actors.open_put(key, request, response) {
            Ok(put) => {
                records::write_opened(
                    &mut self.pieces.chronicle,
                    actor,
                    put,
                    key,
                    kept_request,
                    kept_response,
                    pin,
                );
                Ok(put)
            }
            Err(OpenPutRefusal::TooManyWriters) => Err(Refusal::TooManyWriters),
            Err(OpenPutRefusal::Exhausted { number }) => Err(Refusal::Exhausted { number }),
            Err(OpenPutRefusal::Memory(e)) => Err(Refusal::Memory(e)),
        }
    }
}

// Why no put can be opened.
fn put_refusal(actors: &Actors) -> Option<Refusal>
    ensures { (s : State) → AreActors s actors.now → IsRefusedPut s result }
{
    if actors.writers() >= MAX_WRITERS {
        return Some(Refusal::TooManyWriters);
    }
    let number = actors.next_put() + 1;
    if number >= LIMIT {
        return Some(Refusal::Exhausted { number });
    }
    None
}

// A reader that was given a fragment goes on behind it.
fn go_on(actors: &mut Actors, reader: u64, answer: NextAnswer)
    requires { IsGivable answer }
    ensures keeps { KeepUpWith (answer_record reader answer) actors.old actors.new }
    ensures readers { reader_room_of actors.old ≤ reader_room_of actors.new }
{
    match answer {
        NextAnswer::Gave { index, .. } => actors.gave(reader, index),
        NextAnswer::Ended { .. } | NextAnswer::Waited { .. } | NextAnswer::Broke(_) => {}
    }
}

// Opens the reader that the answer of a lookup gives, and takes its number.
fn answer_lookup(actors: &mut Actors, answer: ReadAnswer) -> Result<u64, AllocError>
    requires { actors.old.next_reader + 1 < 2 ^ 64 }
    ensures number { IfOk result (λ reader. reader ≡ actors.old.next_reader) }
    ensures keeps { IfOk result (λ reader. AnswersLookup reader answer actors.old actors.new) }
    ensures err { OnErr result (StayInStep actors.old actors.new) }
    ensures room { reader_room_of actors.old ≤ reader_room_of actors.new + 1 }
    ensures reserved { 0 < reader_room_of actors.old → IsOk result }
{
    match answer {
        ReadAnswer::Hit { put } => actors.open_reader(put),
        ReadAnswer::Follow { put } => actors.open_reader(put),
        ReadAnswer::Miss(_) => Ok(actors.miss()),
    }
}
