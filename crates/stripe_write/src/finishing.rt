// How a put whose fragments are all cut is finished.
ghost use Rattle.std.specs.Prelude.{◌≡◌, ◌≤◌, true, is_some, length, None};
ghost use Rattle.cache_model.specs.Room.{has_room};
ghost use Rattle.cache_model.specs.State.{fragment_piece, live_row_of};
ghost use Rattle.cache_model.specs.Verdict.{live_vector_of};
ghost use Rattle.stripe_answers.specs.Acts.{IsCommitting};
ghost use Rattle.stripe_core.specs.Stripe.{IsStripe, state_in, units_in};
ghost use Rattle.stripe_core.specs.Between.{IsResting};
ghost use Rattle.stripe_write.specs.Writers.{HasOpenWriter};
ghost use Rattle.stripe_write.specs.Closing.{AreSpelled};
ghost use Rattle.stripe_write.specs.Finishing.{AreLive, AreWeighed, CommitsInStripe, FinishesInStripe, HasCutWriter, IsFirstLost, LosesInStripe, MakesRoomForVector, bytes_now, picked};

use crate::Writer;
use crate::weighing::Vectors;
use alternate_vector::Vector;
use cache_answers::{Receipt, Refusal};
use cache_chronicle::Chronicle;
use dir_table::Directory;
use logged_disk::Disk;
use stripe_core::Stripe;
use stripe_vectors::{Spelled, live_vector};
use tape_base::{Digest, PieceId};

impl Vectors {
    // The one with what the key's vector lists, while that is live.
    fn pick(&self, live: bool) -> &Spelled
        ensures { result.now ≡ picked self.now live }
    {
        match &self.merged {
            Some(merged) if live => merged,
            _ => &self.alone,
        }
    }

    // The list of that one.
    fn into_list(self, live: bool) -> Vector
        ensures { result ≡ (picked self live).list }
    {
        let Vectors { merged, alone } = self;
        match merged {
            Some(merged) if live => merged.list,
            _ => alone.list,
        }
    }
}

// Whether the key's vector is live, so that the put's vector lists what it listed.
fn is_live<D: Disk, R: Directory + Drop, C: Chronicle>(
    stripe: &Stripe<D, R, C>,
    writer: &Writer,
) -> bool
    requires { IsStripe stripe.now }
    ensures { result ≡ is_some (live_vector_of (state_in stripe.now) writer.now.key) }
{
    live_vector(stripe, writer.key).is_some()
}

// Finishes a put, behind a flush where its vector has no room, unless a fragment is lost.
pub(crate) fn finish<D: Disk, R: Directory + Drop, C: Chronicle>(
    stripe: &mut Stripe<D, R, C>,
    writer: &Writer,
    vectors: Vectors,
    now: u64,
) -> Result<Receipt, Refusal>
    requires writer { HasCutWriter stripe.old writer.now }
    requires vectors { AreWeighed stripe.old writer.now vectors }
    requires units { 3 ≤ units_in stripe.old }
    ensures { FinishesInStripe R.purges now stripe.old stripe.new writer.now vectors result }
{
    match make_room(stripe, writer, &vectors, now) {
        Ok(()) => end(stripe, writer, vectors, now),
        Err(why) => Err(why),
    }
}

// Ends a put for whose vector there is room.
fn end<D: Disk, R: Directory + Drop, C: Chronicle>(
    stripe: &mut Stripe<D, R, C>,
    writer: &Writer,
    vectors: Vectors,
    now: u64,
) -> Result<Receipt, Refusal>
    requires writer { HasCutWriter stripe.old writer.now }
    requires vectors { AreWeighed stripe.old writer.now vectors }
    requires room { has_room (state_in stripe.old)
        (bytes_now (state_in stripe.old) writer.now vectors) ≡ true }
    requires units { 2 ≤ units_in stripe.old }
    ensures { FinishesInStripe R.purges now stripe.old stripe.new writer.now vectors result }
{
    match first_lost(stripe, writer) {
        Some(index) => Err(lose(stripe, writer, index)),
        None => complete(stripe, writer, vectors, now),
    }
}

// Flushes where the vector has no room.
fn make_room<D: Disk, R: Directory + Drop, C: Chronicle>(
    stripe: &mut Stripe<D, R, C>,
    writer: &Writer,
    vectors: &Vectors,
    now: u64,
) -> Result<(), Refusal>
    requires resting { IsResting stripe.old }
    requires spelled { AreSpelled (state_in stripe.old).geometry writer.now vectors.now }
    requires units { 1 ≤ units_in stripe.old }
    ensures { MakesRoomForVector now stripe.old stripe.new writer.now vectors.now result }
{
    let bytes = vectors.pick(is_live(stripe, writer)).bytes.len() as u32;
    stripe.make_room(bytes, now)
}

// The first fragment that is not live any more.
fn first_lost<D: Disk, R: Directory + Drop, C: Chronicle>(
    stripe: &Stripe<D, R, C>,
    writer: &Writer,
) -> Option<u32>
    requires { IsStripe stripe.now }
    ensures { IsFirstLost (state_in stripe.now) writer.now result }
{
    'fragments: for index in 1..writer.table.len() + 1 {
        let id = PieceId {
            first: writer.key,
            put: writer.put,
            index,
        };
        if stripe.whereabouts(id).is_none() {
            return Some(index);
        }
    }
    None
}

// Gives the put up whose fragment is lost.
fn lose<D: Disk, R: Directory + Drop, C: Chronicle>(
    stripe: &mut Stripe<D, R, C>,
    writer: &Writer,
    index: u32,
) -> Refusal
    requires writing { HasOpenWriter stripe.old writer.now }
    requires lost { live_row_of (state_in stripe.old)
        (fragment_piece writer.now.key writer.now.put index) ≡ None }
    requires units { 1 ≤ units_in stripe.old }
    ensures { LosesInStripe index stripe.old stripe.new writer.now result }
{
    let id = PieceId {
        first: writer.key,
        put: writer.put,
        index,
    };
    let cause = stripe.chronicle().why_piece(id);
    stripe.give_up(writer.put, writer.key);
    Refusal::Lost { index, cause }
}

// Places the vector, for which there is room, and commits.
fn complete<D: Disk, R: Directory + Drop, C: Chronicle>(
    stripe: &mut Stripe<D, R, C>,
    writer: &Writer,
    vectors: Vectors,
    now: u64,
) -> Result<Receipt, Refusal>
    requires writer { HasCutWriter stripe.old writer.now }
    requires vectors { AreWeighed stripe.old writer.now vectors }
    requires room { has_room (state_in stripe.old)
        (bytes_now (state_in stripe.old) writer.now vectors) ≡ true }
    requires whole { AreLive (state_in stripe.old) writer.now (length writer.now.table.rows) }
    requires units { 2 ≤ units_in stripe.old }
    ensures { FinishesInStripe R.purges now stripe.old stripe.new writer.now vectors result }
{
    let live = is_live(stripe, writer);
    let spelled = vectors.pick(live);
    let id = PieceId {
        first: writer.key,
        put: writer.put,
        index: 0,
    };
    let digest = Digest::of(&spelled.bytes);
    match stripe.place_piece(id, spelled.pin, 0, &spelled.bytes, digest, now) {
        Ok(_) => Ok(commit(stripe, writer, vectors.into_list(live))),
        Err(why) => Err(why),
    }
}

// Commits the put whose vector was placed and lists these alternates.
fn commit<D: Disk, R: Directory + Drop, C: Chronicle>(
    stripe: &mut Stripe<D, R, C>,
    writer: &Writer,
    alternates: Vector,
) -> Receipt
    requires stripe { IsStripe stripe.old }
    requires committing { IsCommitting (state_in stripe.old) writer.now.put writer.now.key }
    requires unit { 1 ≤ units_in stripe.old }
    ensures { CommitsInStripe alternates stripe.old stripe.new writer.now result }
{
    stripe.commit(writer.put, writer.key, alternates);
    Receipt {
        put: writer.put,
        length: writer.table.total(),
        fragments: writer.table.len(),
    }
}
