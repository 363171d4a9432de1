//! Readers on a stripe: they open, are given one fragment after the other, and are closed.
#![tactic(auto, using(logged_disk::proofs::GoingOn::stays_as, stripe_core::proofs::Between::between_same, stripe_core::proofs::Continuing::continues_same, stripe_core::proofs::Continuing::rests_same))]

mod closing;
mod fetching;
mod opening;
mod reader;
mod reading;

pub use closing::close_read;
pub use opening::open_read;
pub use reader::Reader;
pub use reading::read_next;
