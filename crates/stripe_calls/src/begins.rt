// A stripe begins, and gives its device back, as a cache does.
use crate::cache::StripeCache;
use cache_calls::Formats;
use cache_chronicle::FullChronicle;
use logged_disk::Disk;
use packed_directory::PackedDirectory;
use std::alloc::Global;
use stripe_copies::FormatFault;
use stripe_core::Stripe;
use tape_base::Geometry;

/// Its directory has packed entries, and its chronicle forgets nothing.
impl<D: Disk> Formats<D> for StripeCache<D, PackedDirectory, FullChronicle> {
    fn format(
        alloc: Global,
        device: D,
        geometry: Geometry,
    ) -> Result<StripeCache<D, PackedDirectory, FullChronicle>, (FormatFault, D)> {
        match Stripe::format(alloc, device, FullChronicle::new(alloc), geometry) {
            Ok(stripe) => Ok(StripeCache { stripe }),
            Err((fault, device, _)) => Err((fault, device)),
        }
    }

    fn device(&self) -> &D {
        self.stripe.disk()
    }

    fn into_device(self) -> D {
        let (device, _chronicle) = self.stripe.into_parts();
        device
    }
}
