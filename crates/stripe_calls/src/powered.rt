// The switch of a stripe's device is told something, as that of a cache's is.
use crate::cache::StripeCache;
use cache_calls::{Powered, SwitchOrder};
use cache_chronicle::Chronicle;
use dir_table::Directory;
use logged_disk::PowerDisk;
use std::alloc::AllocError;

impl<D: PowerDisk, R: Directory + Drop, C: Chronicle> Powered for StripeCache<D, R, C> {
    fn tell(&mut self, order: SwitchOrder) -> Result<bool, AllocError> {
        self.stripe.tell(order)
    }
}
