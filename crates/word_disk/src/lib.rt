//! A device in words that threads share: its holder writes it, and eyes read it at the same time.
#![tactic(auto)]

mod disk;
mod eye;
mod words;

pub use disk::WordDisk;
pub use eye::WordEye;
