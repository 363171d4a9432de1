//! The alternates of a key, read back from its live vector, and the vector that a put is to have.
#![tactic(auto, using(logged_disk::proofs::GoingOn::stays_as, stripe_core::proofs::Between::between_same, stripe_core::proofs::Continuing::continues_same, stripe_core::proofs::Continuing::rests_same))]

mod laws;
mod reading;
mod spelling;

pub use laws::read_is_listed;
pub use reading::{KeyVector, live_vector, read_vector};
pub use spelling::{Spelled, spell};
