// How the fragment that a reader takes next is read.
ghost use Rattle.cache_model.specs.State.{most_fragments};
ghost use Rattle.std.specs.Prelude.{◌≡◌, ◌-◌, ◌*◌, ◌≤◌, IfSome, None, length, option_map, slice_get};
ghost use Rattle.tape_base.specs.Geometry.{budget_of};
ghost use Rattle.cache_model.specs.Verdict.{next_row};
ghost use Rattle.open_directory.specs.Directory.{table_row};
ghost use Rattle.stripe_core.specs.Stripe.{IsStripe, state_in, units_in};
ghost use Rattle.stripe_read.specs.Fetches.{ComparesPiece, FetchesPiece, IsPieceAsListed, IsUnlikePiece};
ghost use Rattle.cache_calls.specs.Actors.{IsOpenReader, as_row};
ghost use Rattle.stripe_read.specs.Readers.{reading_as};

use crate::Reader;
use cache_chronicle::Chronicle;
use cache_model::Cause;
use dir_table::Directory;
use fragment_table::FragTable;
use logged_disk::Disk;
use std::alloc::AllocError;
use stripe_core::{Found, Stripe};
use tape_base::{Digest, PieceId};

// The length and the digest of the fragment that a reader takes next, where it is cut.
pub(crate) fn next_row<D: Disk, R: Directory + Drop, C: Chronicle>(
    stripe: &Stripe<D, R, C>,
    reader: &Reader,
) -> Option<(u32, Digest)>
    requires stripe { IsStripe stripe.now }
    requires reader { IsOpenReader (state_in stripe.now) (reading_as reader.now) }
    ensures row { result ≡ option_map table_row
        (next_row (state_in stripe.now) (as_row (reading_as reader.now))) }
    ensures few { IfSome result (λ row. reader.now.next ≤ most_fragments) }
{
    match &reader.table {
        Some(table) => listed_row(table, reader.next),
        None => followed_row(stripe, reader),
    }
}

fn listed_row(table: &FragTable, index: u32) -> Option<(u32, Digest)>
    requires { 1 ≤ index }
    ensures row { result ≡ option_map table_row (slice_get table.now.rows (index - 1)) }
    ensures few { IfSome result (λ row. index ≤ most_fragments) }
{
    if table.len() < index {
        return None;
    }
    let (length, digest) = table.row(index);
    Some((length, Digest(digest)))
}

fn followed_row<D: Disk, R: Directory + Drop, C: Chronicle>(
    stripe: &Stripe<D, R, C>,
    reader: &Reader,
) -> Option<(u32, Digest)>
    requires stripe { IsStripe stripe.now }
    requires reader { IsOpenReader (state_in stripe.now) (reading_as reader.now) }
    requires follows { reader.now.table ≡ None }
    ensures row { result ≡ option_map table_row
        (next_row (state_in stripe.now) (as_row (reading_as reader.now))) }
    ensures few { IfSome result (λ row. reader.now.next ≤ most_fragments) }
{
    let directory = stripe.open_directory();
    // It is asked for what its answer tells of the directory.
    let _writers = directory.writers();
    directory.row(reader.put, reader.next)
}

// Reads a fragment to the front of `into`. One whose payload, by the records, is not the one that
// is listed is recorded as damaged, and its entry goes.
pub(crate) fn fetch<D: Disk, R: Directory + Drop, C: Chronicle>(
    stripe: &mut Stripe<D, R, C>,
    id: PieceId,
    listed: Digest,
    into: &mut [u8],
) -> Result<Found, AllocError>
    requires stripe { IsStripe stripe.old }
    requires units { 2 ≤ units_in stripe.old }
    requires into { length into.old ≡ 512 * budget_of (state_in stripe.old).geometry }
    ensures { FetchesPiece id listed stripe.old stripe.new result into.new }
{
    match stripe.find_piece(id, into)? {
        Found::Found { length: size } => Ok(compare(stripe, id, listed, size)),
        Found::Missing(why) => Ok(Found::Missing(why)),
    }
}

// What was found is given, unless its payload is not the one that is listed.
fn compare<D: Disk, R: Directory + Drop, C: Chronicle>(
    stripe: &mut Stripe<D, R, C>,
    id: PieceId,
    listed: Digest,
    size: u32,
) -> Found
    requires stripe { IsStripe stripe.old }
    requires unit { 1 ≤ units_in stripe.old }
    ensures { ComparesPiece id listed size stripe.old stripe.new result }
{
    match mismatch(stripe, id, listed) {
        Some(Unlike { place, found }) => {
            stripe.mark_damaged(id, listed, found);
            let kept = listed;
            Found::Missing(Cause::Damaged { place, kept, found })
        }
        None => Found::Found { length: size },
    }
}

// The place of a piece, and the digest of its payload, which is not the one that is listed.
#[derive(Clone, Copy, Debug)]
struct Unlike {
    place: u64,
    found: Digest,
}

// Tells of a payload that is not the one that is listed. The records have its digest, so that no
// SHA-256 of its bytes is made.
fn mismatch<D: Disk, R: Directory + Drop, C: Chronicle>(
    stripe: &Stripe<D, R, C>,
    id: PieceId,
    listed: Digest,
) -> Option<Unlike>
    requires { IsStripe stripe.now }
    ensures some { IfSome result (IsUnlikePiece (state_in stripe.now) id listed) }
    ensures none { result ≡ None → IsPieceAsListed (state_in stripe.now) id listed }
{
    let found = stripe.payload_of(id)?;
    if found == listed {
        return None;
    }
    let place = stripe.whereabouts(id)?;
    Some(Unlike { place, found })
}
