//! The pieces of a stripe: on the cyclone, and in the records that tell of them.
#![tactic(auto, using(logged_disk::proofs::GoingOn::stays_as))]

mod copying;
mod finding;
mod flushing;
mod looking;
mod pieces;
mod placing;
pub mod records;
mod taking;

pub use pieces::{Pieces, records_of};
