// How a key's live vector is read.
ghost use Rattle.std.specs.Prelude.{ℕ, ◌≡◌, ◌+◌, ◌≤◌, IfOk, IfSome, IsSome, OnErr, None, Some, Ok};
ghost use Rattle.alternate_vector.specs.Reading.{read_vector};
ghost use Rattle.cache_model.specs.Kept.{with_records};
ghost use Rattle.cache_model.specs.State.{live_row_of};
ghost use Rattle.cache_model.specs.Verdict.{live_vector_of, vector_of};
ghost use Rattle.piece_answers.specs.Covers.{AllReadIsSeen};
ghost use Rattle.piece_answers.specs.Find.{HasRoomFor};
ghost use Rattle.held_pieces.specs.Still.{IsUnwritten};
ghost use Rattle.stripe_core.specs.Stripe.{IsStripe, kept_in, room_for, seen_in, state_in, units_in};
ghost use Rattle.stripe_core.specs.Between.{Continues};
ghost use Rattle.stripe_vectors.specs.Reading.{FindsVector, IsLiveVectorOf, ReadsKeyVector, alternates_spelled, vector_adds};

use alternate_vector::{Vector, VectorFault};
use cache_chronicle::Chronicle;
use cache_model::Cause;
use dir_table::Directory;
use logged_disk::Disk;
use std::alloc::{AllocError, Global};
use stripe_core::{Found, Stripe};
use tape_base::{BLOCK, Key, PieceId};

/// What is read of a key's vector.
#[derive(Debug, Drop)]
pub enum KeyVector {
    /// None is live.
    Absent,
    /// What the live one lists.
    Read(Vector),
    /// The live one cannot be read, for this cause.
    Trouble(Cause),
}

/// Reads the live vector of a key. Bytes of its digest that are no vector list nothing.
pub fn read_vector<D: Disk, R: Directory + Drop, C: Chronicle>(
    stripe: &mut Stripe<D, R, C>,
    key: Key,
) -> Result<KeyVector, AllocError>
    requires { IsStripe stripe.old }
    ensures continues { Continues stripe.old stripe.new }
    ensures adds { IfOk result (λ answer. kept_in stripe.new
        ≡ with_records (kept_in stripe.old) (vector_adds (state_in stripe.old) key answer)) }
    ensures finds { IfOk result (FindsVector (state_in stripe.old) (seen_in stripe.old).device
        (seen_in stripe.new).device key) }
    // What was read is what is seen, also where memory is wanting for it.
    ensures seen { AllReadIsSeen (seen_in stripe.old).device (seen_in stripe.new).device }
    ensures err { OnErr result (kept_in stripe.new ≡ kept_in stripe.old) }
    ensures unwritten { IsUnwritten (seen_in stripe.old).device (seen_in stripe.new).device }
    ensures row { (put : ℕ) → room_for put stripe.new.actors ≡ room_for put stripe.old.actors }
    ensures unit { units_in stripe.old ≤ units_in stripe.new + 1 }
{
    match live_vector(stripe, key) {
        Some(vector) => read_live(stripe, key, vector),
        None => Ok(KeyVector::Absent),
    }
}

/// The key's live vector.
pub fn live_vector<D: Disk, R: Directory + Drop, C: Chronicle>(
    stripe: &Stripe<D, R, C>,
    key: Key,
) -> Option<PieceId>
    requires { IsStripe stripe.now }
    ensures none { result ≡ None → live_vector_of (state_in stripe.now) key ≡ None }
    ensures some { IfSome result (λ id. (vector_of (state_in stripe.now) key ≡ Some id)
        × IsSome (live_row_of (state_in stripe.now) id)) }
{
    let vector = stripe.chronicle().vector_of(key)?;
    match stripe.whereabouts(vector) {
        Some(_) => Some(vector),
        None => None,
    }
}

fn read_live<D: Disk, R: Directory + Drop, C: Chronicle>(
    stripe: &mut Stripe<D, R, C>,
    key: Key,
    vector: PieceId,
) -> Result<KeyVector, AllocError>
    requires stripe { IsStripe stripe.old }
    requires vector { IsLiveVectorOf (state_in stripe.old) key vector }
    ensures { ReadsKeyVector key stripe.old stripe.new result }
{
    let alloc = stripe.alloc();
    let blocks = stripe.chronicle().size_of(vector).unwrap();
    let mut into = vec![in alloc; 0; blocks as usize * BLOCK]?;
    read_through(stripe, key, vector, &mut into)
}

// Reads through memory that has room for the vector.
fn read_through<D: Disk, R: Directory + Drop, C: Chronicle>(
    stripe: &mut Stripe<D, R, C>,
    key: Key,
    vector: PieceId,
    into: &mut [u8],
) -> Result<KeyVector, AllocError>
    requires stripe { IsStripe stripe.old }
    requires vector { IsLiveVectorOf (state_in stripe.old) key vector }
    requires into { HasRoomFor (state_in stripe.old) vector into.old }
    ensures { ReadsKeyVector key stripe.old stripe.new result }
{
    let alloc = stripe.alloc();
    match stripe.find_piece(vector, into)? {
        Found::Found { length } => Ok(KeyVector::Read(listed(alloc, &into[..length as usize])?)),
        Found::Missing(why) => Ok(KeyVector::Trouble(why)),
    }
}

// What a payload lists.
fn listed(alloc: Global, payload: &[u8]) -> Result<Vector, AllocError>
    ensures { IfOk result (λ list. list ≡ alternates_spelled payload.now) }
{
    match Vector::decode(alloc, payload) {
        Ok(list) => Ok(list),
        Err(VectorFault::Memory(e)) => Err(e),
        Err(_) => Ok(Vector::new(alloc)),
    }
}
