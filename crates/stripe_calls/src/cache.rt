// A stripe as a cache.
ghost use Rattle.std.specs.Prelude.{◌≡◌};

use cache_chronicle::Chronicle;
use dir_table::Directory;
use logged_disk::Disk;
use stripe_core::Stripe;

/// A stripe between calls, for what a cache is called for.
#[derive(Drop)]
pub struct StripeCache<D: Disk, R: Directory + Drop, C: Chronicle> {
    pub(crate) stripe: Stripe<D, R, C>,
}

impl<D: Disk, R: Directory + Drop, C: Chronicle> StripeCache<D, R, C> {
    pub fn new(stripe: Stripe<D, R, C>) -> StripeCache<D, R, C>
        ensures { result.stripe ≡ stripe }
    {
        StripeCache { stripe }
    }

    pub fn into_stripe(self) -> Stripe<D, R, C>
        ensures { result ≡ self.stripe }
    {
        self.stripe
    }
}
