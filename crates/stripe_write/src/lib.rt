//! Writers on a stripe: they open, take bytes, close or are given up; and objects are removed.
#![tactic(auto, using(logged_disk::proofs::GoingOn::stays_as, stripe_core::proofs::Between::between_same, stripe_core::proofs::Continuing::continues_same, stripe_core::proofs::Continuing::rests_same))]

mod closing;
mod finishing;
mod removal;
mod resting;
mod weighing;
mod writer;
mod writing;

pub use closing::close_write;
pub use removal::remove;
pub use writer::Writer;
pub use writing::{abort_write, open_write, write};
