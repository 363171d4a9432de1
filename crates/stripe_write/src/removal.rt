// Objects are removed.
ghost use Rattle.std.specs.Prelude.{◌≡◌, is_some};
ghost use Rattle.cache_model.specs.Verdict.{live_vector_of};
ghost use Rattle.stripe_core.specs.Stripe.{IsStripe, state_in};
ghost use Rattle.stripe_core.specs.Between.{IsResting};
ghost use Rattle.stripe_write.specs.Removals.{RemovesInStripe};

use cache_answers::Removal;
use cache_chronicle::Chronicle;
use dir_table::Directory;
use logged_disk::Disk;
use std::alloc::AllocError;
use stripe_core::Stripe;
use tape_base::Key;

/// Removes an object, where its vector is live.
pub fn remove<D: Disk, R: Directory + Drop, C: Chronicle>(
    stripe: &mut Stripe<D, R, C>,
    key: Key,
) -> Result<Removal, AllocError>
    requires resting { IsResting stripe.old }
    ensures { RemovesInStripe stripe.old stripe.new key result }
{
    stripe.prepare(None, 1)?;
    if is_live(stripe, key) {
        let put = stripe.take_out(key);
        Ok(Removal::Removed { put })
    } else {
        Ok(Removal::Absent(stripe.chronicle().why(key)))
    }
}

fn is_live<D: Disk, R: Directory + Drop, C: Chronicle>(stripe: &Stripe<D, R, C>, key: Key) -> bool
    requires { IsStripe stripe.now }
    ensures { result ≡ is_some (live_vector_of (state_in stripe.now) key) }
{
    match stripe.chronicle().vector_of(key) {
        Some(vector) => stripe.whereabouts(vector).is_some(),
        None => false,
    }
}
