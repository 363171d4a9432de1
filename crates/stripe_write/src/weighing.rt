// What is weighed before a put closes: the vector that it is to have.
ghost use Rattle.std.specs.Prelude.{◌≡◌, ◌<◌, ◌≤◌, [], ◌∷◌, IfOk, OnErr, IsSome, nat_le, length};
ghost use Rattle.tape_base.specs.Blocks.{blocks_of};
ghost use Rattle.tape_base.specs.Geometry.{budget_of};
ghost use Rattle.fragment_table.specs.Table.{total_length};
ghost use Rattle.alternate_vector.specs.Alternates.{stored_of, vector_size};
ghost use Rattle.tape_base.specs.Digest.{digest_of};
ghost use Rattle.cache_model.specs.State.{most_fragments};
ghost use Rattle.stripe_core.specs.Stripe.{state_in, units_in};
ghost use Rattle.stripe_write.specs.Writers.{HasOpenWriter, written_as};
ghost use Rattle.stripe_write.specs.Closing.{WeighsInStripe};
ghost use Rattle.stripe_write.specs.Weighing.{FitsInStripe, IsOwnAlternateOf, IsSpelledAlone, IsSpelledWith, fault_in, list_in};
ghost use Rattle.cache_calls.specs.Asked.{rows_at_close};
ghost use Rattle.cache_calls.specs.Writers.{alternate_at_close};

use crate::Writer;
use alternate_vector::{Alternate, Vector};
use cache_answers::Refusal;
use cache_chronicle::Chronicle;
use cache_model::Cause;
use dir_table::Directory;
use fragment_table::FragTable;
use logged_disk::Disk;
use std::alloc::{AllocError, Global};
use stripe_core::Stripe;
use stripe_vectors::{KeyVector, Spelled, read_is_listed, read_vector, spell};
use tape_base::{BLOCK, Digest, Geometry, HEADER};

/// The vector that a put is to have: with what the key's vector listed, where that was read, and with
/// the put's own alternate alone.
#[derive(Debug, Drop)]
pub struct Vectors {
    pub(crate) merged: Option<Spelled>,
    pub(crate) alone: Spelled,
}

// The alternate that a put stands for when it closes, and its vector alone, where that is a piece.
#[derive(Debug, Drop)]
struct Own {
    alternate: Alternate,
    alone: Option<Spelled>,
}

// Reads the key's vector and spells the put's own, and gives the put up where that is no piece.
// What is spelled without the key's vector is spelled first, so that want of memory records nothing.
pub(crate) fn weigh<D: Disk, R: Directory + Drop, C: Chronicle>(
    stripe: &mut Stripe<D, R, C>,
    writer: &Writer,
    rest: Digest,
) -> Result<Vectors, Refusal>
    requires writing { HasOpenWriter stripe.old writer.now }
    requires rest { rest ≡ digest_of writer.now.gathered.items }
    requires units { 2 ≤ units_in stripe.old }
    ensures { WeighsInStripe stripe.old stripe.new writer.now result }
{
    // The law tells that what was read is what the key has.
    read_is_listed();
    let own = spell_own(stripe.alloc(), stripe.geometry(), writer, rest)?;
    let found = read_vector(stripe, writer.key)?;
    match fault_in(&found) {
        Some(count) => Err(Refusal::DeviceFault { count }),
        None => fit(stripe, writer, own, list_in(found)),
    }
}

fn fault_in(found: &KeyVector) -> Option<u64>
    ensures { result ≡ fault_in found.now }
{
    match found {
        KeyVector::Trouble(Cause::DeviceFault { count }) => Some(*count),
        _ => None,
    }
}

fn list_in(found: KeyVector) -> Option<Vector>
    ensures { result ≡ list_in found }
{
    match found {
        KeyVector::Read(list) => Some(list),
        KeyVector::Absent | KeyVector::Trouble(_) => None,
    }
}

// Spells the put's vector where its own alternate alone is a piece, and gives the put up where not.
fn fit<D: Disk, R: Directory + Drop, C: Chronicle>(
    stripe: &mut Stripe<D, R, C>,
    writer: &Writer,
    own: Own,
    list: Option<Vector>,
) -> Result<Vectors, Refusal>
    requires writing { HasOpenWriter stripe.old writer.now }
    requires units { 1 ≤ units_in stripe.old }
    requires own { IsOwnAlternateOf (state_in stripe.old).geometry writer.now own }
    ensures { FitsInStripe list stripe.old stripe.new writer.now result }
{
    let Own { alternate, alone } = own;
    match alone {
        Some(alone) => {
            let merged = spell_with(stripe.alloc(), stripe.geometry(), list, &alternate)?;
            Ok(Vectors { merged, alone })
        }
        None => {
            let bytes = alternate.size_alone() as u64;
            stripe.give_up(writer.put, writer.key);
            Err(Refusal::VectorTooLarge { bytes })
        }
    }
}

// Spells what needs no other vector.
fn spell_own(alloc: Global, g: &Geometry, writer: &Writer, rest: Digest) -> Result<Own, AllocError>
    requires rest { rest ≡ digest_of writer.now.gathered.items }
    requires few { length writer.now.gathered.items < g.now.fragment }
    requires more { 0 < length writer.now.gathered.items → length writer.now.table.rows < most_fragments }
    ensures { IfOk result (IsOwnAlternateOf g.now writer.now) }
{
    let alternate = alternate_of(g, writer, rest)?;
    let alone = spell_alone(alloc, g, &alternate)?;
    Ok(Own { alternate, alone })
}

// The alternate that a put stands for when it closes.
fn alternate_of(g: &Geometry, writer: &Writer, rest: Digest) -> Result<Alternate, AllocError>
    requires rest { rest ≡ digest_of writer.now.gathered.items }
    requires few { length writer.now.gathered.items < g.now.fragment }
    requires more { 0 < length writer.now.gathered.items → length writer.now.table.rows < most_fragments }
    ensures stored { IfOk result (λ a. stored_of a ≡ alternate_at_close (written_as writer.now)) }
    ensures length { IfOk result (λ a. a.length ≡ total_length a.table.rows) }
{
    let table = table_of(g, writer, rest)?;
    Ok(Alternate {
        put: writer.put,
        pin: writer.pin,
        length: table.total(),
        request: writer.request.copy()?,
        response: writer.response.copy()?,
        table,
    })
}

// The fragments of a put when it closes: those that are cut, and what is gathered.
fn table_of(g: &Geometry, writer: &Writer, rest: Digest) -> Result<FragTable, AllocError>
    requires rest { rest ≡ digest_of writer.now.gathered.items }
    requires few { length writer.now.gathered.items < g.now.fragment }
    requires more { 0 < length writer.now.gathered.items → length writer.now.table.rows < most_fragments }
    ensures { IfOk result (λ table. table.rows ≡ rows_at_close (written_as writer.now)) }
{
    // The length of a fragment is read for what it tells of the width of the rest.
    let _fragment = g.fragment;
    let mut table = writer.table.copy()?;
    if !writer.gathered.is_empty() {
        table.push(writer.gathered.len() as u32, rest.0)?;
    }
    Ok(table)
}

// Whether a payload of so many bytes is a piece.
fn is_piece(g: &Geometry, bytes: usize) -> bool
    ensures { result ≡ nat_le (blocks_of bytes) (budget_of g.now) }
{
    bytes <= g.agg as usize / 2 * BLOCK - HEADER
}

// Spells the vector of a new alternate alone, where it is a piece.
fn spell_alone(alloc: Global, g: &Geometry, new: &Alternate) -> Result<Option<Spelled>, AllocError>
    requires length { new.now.length ≡ total_length new.now.table.rows }
    ensures { IfOk result (IsSpelledAlone g.now (stored_of new.now)) }
{
    if !is_piece(g, new.size_alone()) {
        return Ok(None);
    }
    Ok(Some(spell(alloc, g, &Vector::new(alloc), new)?))
}

// Spells the vector of a new alternate, which alone is a piece, with what was read; memory is
// wanting for nothing else.
fn spell_with(
    alloc: Global,
    g: &Geometry,
    list: Option<Vector>,
    new: &Alternate,
) -> Result<Option<Spelled>, AllocError>
    requires length { new.now.length ≡ total_length new.now.table.rows }
    requires fits { blocks_of (vector_size (stored_of new.now ∷ [])) ≤ budget_of g.now }
    ensures merged { IfOk result (IsSpelledWith g.now list (stored_of new.now)) }
    ensures wants { OnErr result (IsSome list) }
{
    match list {
        Some(list) => Ok(Some(spell(alloc, g, &list, new)?)),
        None => Ok(None),
    }
}
