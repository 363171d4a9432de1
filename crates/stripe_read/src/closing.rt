// Readers are closed.
ghost use Rattle.stripe_read.specs.Readers.{ClosesReaderInStripe, HasOpenReader};

use crate::Reader;
use cache_chronicle::Chronicle;
use dir_table::Directory;
use logged_disk::Disk;
use std::alloc::AllocError;
use stripe_core::Stripe;

/// Closes a reader. Where memory is wanting it gives the reader back.
pub fn close_read<D: Disk, R: Directory + Drop, C: Chronicle>(
    stripe: &mut Stripe<D, R, C>,
    reader: Reader,
) -> Result<(), (AllocError, Reader)>
    requires { HasOpenReader stripe.old reader }
    ensures { ClosesReaderInStripe reader stripe.old stripe.new result }
{
    if let Err(e) = stripe.prepare(None, 1) {
        return Err((e, reader));
    }
    stripe.end_read(reader.reader);
    Ok(())
}
