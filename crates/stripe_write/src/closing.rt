// Writers close.
ghost use Rattle.std.specs.Prelude.{◌≡◌, true};
ghost use Rattle.tape_base.specs.Digest.{digest_of};
ghost use Rattle.cache_model.specs.Legal.{is_writing};
ghost use Rattle.stripe_core.specs.Stripe.{IsStripe, state_in};
ghost use Rattle.stripe_core.specs.Between.{IsResting};
ghost use Rattle.stripe_write.specs.Writers.{HasMemoryToClose, HasOpenWriter, written_as};
ghost use Rattle.stripe_write.specs.Finishing.{AreWeighed};
ghost use Rattle.stripe_write.specs.Closes.{ClosesWriterInStripe, EndsWriterInStripe, MakesMemoryToClose, is_sealed_by};
ghost use Rattle.cache_calls.specs.Actors.{IsWriterOf};

use crate::Writer;
use crate::finishing::finish;
use crate::resting::cut_rest;
use crate::weighing::{Vectors, weigh};
use crate::writing::is_open;
use cache_answers::{Receipt, Refusal};
use cache_chronicle::Chronicle;
use dir_table::Directory;
use logged_disk::Disk;
use std::alloc::AllocError;
use stripe_core::Stripe;
use tape_base::Digest;

// The calls that closing makes at most: a vector is read, the rest is cut, there is a flush, the put's
// vector is placed, and the put ends.
const CALLS: u32 = 5;

/// Closes a put: what is gathered is its last fragment, and its vector is placed, with the alternates
/// that the key had and that its request does not match. Where a fragment is lost, or the vector is no
/// piece, the put is given up. A writer that the device refuses may be closed again or given up. A flush
/// copies what is due at `now`.
pub fn close_write<D: Disk, R: Directory + Drop, C: Chronicle>(
    stripe: &mut Stripe<D, R, C>,
    writer: &mut Writer,
    now: u64,
) -> Result<Receipt, Refusal>
    requires resting { IsResting stripe.old }
    requires writer { IsWriterOf (state_in stripe.old) (written_as writer.old) }
    ensures { ClosesWriterInStripe R.purges now stripe.old stripe.new writer.old writer.new result }
{
    if !is_open(stripe, writer.put) {
        return Err(Refusal::NoSuchWriter);
    }
    match make_memory(stripe, writer) {
        Ok(()) => close_open(stripe, writer, now),
        Err(e) => Err(Refusal::Memory(e)),
    }
}

// Makes memory for all that closing does.
fn make_memory<D: Disk, R: Directory + Drop, C: Chronicle>(
    stripe: &mut Stripe<D, R, C>,
    writer: &mut Writer,
) -> Result<(), AllocError>
    requires stripe { IsStripe stripe.old }
    requires open { is_writing (state_in stripe.old) writer.old.put ≡ true }
    ensures { MakesMemoryToClose stripe.old stripe.new writer.old writer.new result }
{
    stripe.prepare(Some(writer.put), CALLS)?;
    writer.table.reserve(1)
}

// Closes an open put for which memory is made.
fn close_open<D: Disk, R: Directory + Drop, C: Chronicle>(
    stripe: &mut Stripe<D, R, C>,
    writer: &mut Writer,
    now: u64,
) -> Result<Receipt, Refusal>
    requires writing { HasOpenWriter stripe.old writer.old }
    requires memory { HasMemoryToClose 5 stripe.old writer.old }
    ensures { ClosesWriterInStripe R.purges now stripe.old stripe.new writer.old writer.new result }
{
    let rest = Digest::of(&writer.gathered);
    match weigh(stripe, writer, rest) {
        Ok(vectors) => end(stripe, writer, vectors, rest, now),
        Err(why) => {
            writer.sealed = is_sealed_by(&why, writer.sealed);
            Err(why)
        }
    }
}

// Whether a writer takes no more bytes behind a refusal, where it took some before or none.
fn is_sealed_by(why: &Refusal, sealed: bool) -> bool
    ensures { result ≡ is_sealed_by why.now sealed }
{
    match why {
        Refusal::DeviceFault { .. } => true,
        _ => sealed,
    }
}

// Cuts the rest, which has this digest, and finishes. From here on the writer takes no more bytes.
fn end<D: Disk, R: Directory + Drop, C: Chronicle>(
    stripe: &mut Stripe<D, R, C>,
    writer: &mut Writer,
    vectors: Vectors,
    rest: Digest,
    now: u64,
) -> Result<Receipt, Refusal>
    requires writing { HasOpenWriter stripe.old writer.old }
    requires vectors { AreWeighed stripe.old writer.old vectors }
    requires rest { rest ≡ digest_of writer.old.gathered.items }
    requires memory { HasMemoryToClose 4 stripe.old writer.old }
    ensures { EndsWriterInStripe R.purges now stripe.old stripe.new writer.old writer.new vectors
        result }
{
    writer.sealed = true;
    match cut_rest(stripe, writer, rest, now) {
        Ok(()) => finish(stripe, writer, vectors, now),
        Err(why) => Err(why),
    }
}
