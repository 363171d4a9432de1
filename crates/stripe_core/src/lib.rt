//! The stripe: its pieces, and who writes and reads them, in step with its records.
#![tactic(auto, using(logged_disk::proofs::GoingOn::stays_as, crate::proofs::Between::between_same))]

mod acting;
mod stripe;
mod switching;

pub use piece_answers::{Found, Placed, Stop};
pub use stripe::Stripe;
