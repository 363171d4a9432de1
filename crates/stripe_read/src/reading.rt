// A reader is given the next fragment, or told why there is none.
ghost use Rattle.std.specs.Prelude.{◌≡◌, ◌*◌, ◌≤◌, ℕ, List, Some, None, Ok, length};
ghost use Rattle.tape_base.specs.Geometry.{budget_of};
ghost use Rattle.cache_model.specs.State.{most_fragments};
ghost use Rattle.cache_model.specs.Verdict.{next_piece, next_row, verdict_at_end};
ghost use Rattle.stripe_core.specs.Stripe.{IsStripe, seen_in, state_in, units_in};
ghost use Rattle.stripe_read.specs.Readers.{HasOpenReader, rows_hit, reading_as};
ghost use Rattle.stripe_read.specs.Nexts.{HasNext, ReadsNextInStripe};
ghost use Rattle.cache_calls.specs.Actors.{IsOpenReader, as_row};
ghost use Rattle.cache_calls.specs.Readers.{noted};

use crate::Reader;
use crate::fetching::{fetch, next_row};
use cache_answers::NextPiece;
use cache_chronicle::Chronicle;
use cache_model::{Cause, NextAnswer};
use dir_table::Directory;
use logged_disk::Disk;
use open_directory::PutState;
use std::alloc::AllocError;
use stripe_core::{Found, Stripe};
use tape_base::{Digest, PieceId};

/// Reads the next fragment to the front of `into`, or says why there is none.
pub fn read_next<D: Disk, R: Directory + Drop, C: Chronicle>(
    stripe: &mut Stripe<D, R, C>,
    reader: &mut Reader,
    into: &mut [u8],
) -> Result<NextPiece, AllocError>
    requires open { HasOpenReader stripe.old reader.old }
    requires into { length into.old ≡ 512 * budget_of (state_in stripe.old).geometry }
    ensures { ReadsNextInStripe stripe.old stripe.new reader.old reader.new result into.new }
{
    stripe.prepare(None, 3)?;
    match next_row(stripe, reader) {
        Some((cut, digest)) => give(stripe, reader, cut, digest, into),
        None => Ok(stop(stripe, reader)),
    }
}

// Gives the next fragment, which is listed with that many bytes and that digest.
fn give<D: Disk, R: Directory + Drop, C: Chronicle>(
    stripe: &mut Stripe<D, R, C>,
    reader: &mut Reader,
    cut: u32,
    digest: Digest,
    into: &mut [u8],
) -> Result<NextPiece, AllocError>
    requires open { HasOpenReader stripe.old reader.old }
    requires units { 3 ≤ units_in stripe.old }
    requires next { HasNext (state_in stripe.old) reader.old cut digest }
    requires few { reader.old.next ≤ most_fragments }
    requires into { length into.old ≡ 512 * budget_of (state_in stripe.old).geometry }
    ensures { ReadsNextInStripe stripe.old stripe.new reader.old reader.new result into.new }
{
    let index = reader.next;
    match fetch(stripe, reader.next_piece(), digest, into)? {
        Found::Found { length: size } => {
            stripe.note(reader.reader, NextAnswer::Gave { index, length: cut });
            reader.next = index + 1;
            Ok(NextPiece::Piece {
                index,
                length: size,
            })
        }
        Found::Missing(why) => {
            stripe.note(reader.reader, NextAnswer::Broke(why));
            Ok(NextPiece::Broken(why))
        }
    }
}

// Says why no fragment comes, where all that is cut was given.
fn stop<D: Disk, R: Directory + Drop, C: Chronicle>(
    stripe: &mut Stripe<D, R, C>,
    reader: &Reader,
) -> NextPiece
    requires open { HasOpenReader stripe.old reader.now }
    requires unit { 1 ≤ units_in stripe.old }
    requires none { next_row (state_in stripe.old) (as_row (reading_as reader.now)) ≡ None }
    ensures reads { (into : List ℕ) → ReadsNextInStripe stripe.old stripe.new reader.now reader.now
        (Ok result) into }
    ensures still { (seen_in stripe.new).device ≡ (seen_in stripe.old).device }
{
    let answer = at_end(stripe, reader);
    stripe.note(reader.reader, noted(&answer, 0));
    answer
}

// How the body stands behind its last fragment.
fn at_end<D: Disk, R: Directory + Drop, C: Chronicle>(
    stripe: &Stripe<D, R, C>,
    reader: &Reader,
) -> NextPiece
    requires stripe { IsStripe stripe.now }
    requires reader { IsOpenReader (state_in stripe.now) (reading_as reader.now) }
    ensures { noted 0 result
        ≡ verdict_at_end (state_in stripe.now) (as_row (reading_as reader.now))
        (rows_hit reader.now) }
{
    match &reader.table {
        Some(table) => NextPiece::End {
            length: table.total(),
        },
        None => how_put_stands(stripe, reader),
    }
}

fn how_put_stands<D: Disk, R: Directory + Drop, C: Chronicle>(
    stripe: &Stripe<D, R, C>,
    reader: &Reader,
) -> NextPiece
    requires stripe { IsStripe stripe.now }
    requires reader { IsOpenReader (state_in stripe.now) (reading_as reader.now) }
    requires follows { reader.now.table ≡ None }
    ensures { noted 0 result
        ≡ verdict_at_end (state_in stripe.now) (as_row (reading_as reader.now)) None }
{
    let directory = stripe.open_directory();
    // It is asked for what its answer tells of the directory.
    let _writers = directory.writers();
    match directory.put_state(reader.put) {
        Some(PutState::Open { cut }) => NextPiece::NotYet { cut },
        Some(PutState::Committed { length, .. }) => NextPiece::End { length },
        Some(PutState::Aborted { .. }) => NextPiece::Broken(Cause::Aborted { writer: reader.put }),
        None => unreachable!(),
    }
}

impl Reader {
    // The fragment that it takes next.
    fn next_piece(&self) -> PieceId
        ensures { result ≡ next_piece (as_row (reading_as self.now)) }
    {
        PieceId {
            first: self.key,
            put: self.put,
            index: self.next,
        }
    }
}

// An answer as it is recorded, where the fragment is listed with that length.
fn noted(answer: &NextPiece, listed: u32) -> NextAnswer
    ensures { result ≡ noted listed answer.now }
{
    match answer {
        NextPiece::Piece { index, .. } => NextAnswer::Gave {
            index: *index,
            length: listed,
        },
        NextPiece::End { length } => NextAnswer::Ended { length: *length },
        NextPiece::NotYet { cut } => NextAnswer::Waited { cut: *cut },
        NextPiece::Broken(why) => NextAnswer::Broke(*why),
    }
}
