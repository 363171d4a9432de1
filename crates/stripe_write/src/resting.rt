// The rest that a writer gathered, which fills no fragment, is cut when the writer closes.
ghost use Rattle.std.specs.Prelude.{◌≡◌, true};
ghost use Rattle.tape_base.specs.Digest.{digest_of};
ghost use Rattle.stripe_write.specs.Resting.{CutsLastInStripe};
ghost use Rattle.stripe_write.specs.Writers.{HasMemoryToClose, HasOpenWriter};

use crate::Writer;
use crate::writing::cut;
use cache_answers::Refusal;
use cache_chronicle::Chronicle;
use dir_table::Directory;
use logged_disk::Disk;
use stripe_core::Stripe;
use tape_base::Digest;

/// Cuts what a sealed writer has gathered, with this digest, where there is some. Memory for it is
/// made before.
pub(crate) fn cut_rest<D: Disk, R: Directory + Drop, C: Chronicle>(
    stripe: &mut Stripe<D, R, C>,
    writer: &mut Writer,
    digest: Digest,
    now: u64,
) -> Result<(), Refusal>
    requires writing { HasOpenWriter stripe.old writer.old }
    requires sealed { writer.old.sealed ≡ true }
    requires memory { HasMemoryToClose 1 stripe.old writer.old }
    requires digest { digest ≡ digest_of writer.old.gathered.items }
    ensures { CutsLastInStripe R.purges now stripe.old stripe.new writer.old writer.new result }
{
    if writer.gathered.is_empty() {
        return Ok(());
    }
    match cut(stripe, writer, digest, now) {
        Ok(_) => Ok(()),
        Err(refusal) => Err(refusal),
    }
}
