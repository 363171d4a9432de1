//! Keeps the records of a session, and answers questions about them from tables.
#![tactic(auto)]

mod chronicle;
mod counts;
mod full;
mod losses;
mod opened;
mod payloads;
mod pieces;
mod records;
mod tables;
mod tape;
mod vectors;

pub use cache_model::{Cause, NextAnswer, ReadAnswer, Rec};
pub use chronicle::Chronicle;
pub use full::FullChronicle;
pub use payloads::Payload;
pub use pieces::KeptPiece;
