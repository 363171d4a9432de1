//! The span and the copies of the directory, as a stripe has them on its device.
#![tactic(auto)]

mod copies;
mod format;
mod packs;

pub use copies::{Copies, SyncStop};
pub use format::{FormatFault, lay_out};
pub use packs::PacksEntries;
