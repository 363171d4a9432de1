//! A directory entry: ten fields packed into ten bytes.
#![tactic(auto)]

mod bits;
mod codec;
mod entry;
mod size;

pub use bits::Bits;
pub use codec::{decode, encode};
pub use entry::Entry;
pub use size::size_class;
