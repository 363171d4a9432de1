//! The SHA-256 of a message, with the words of each block made four at a time.
#![tactic(auto)]

mod constants;
mod digests;
mod padding;
mod rounds;
mod schedules;
mod vectors;

pub use constants::INITIAL_STATE;
pub use digests::{digest, digest_from};
pub use padding::{BLOCK, block_at};
pub use rounds::compress;
pub use schedules::keyed_words;
