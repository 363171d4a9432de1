//! The content area that is written in a circle, with the buffer and the directory of its pieces.
#![tactic(auto)]

mod cyclone;
mod switching;
mod syncing;

pub use cyclone::Cyclone;
