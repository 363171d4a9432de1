//! What an inspection of a device prints: its span, both copies of its directory, and which of them an opening takes; and what a
//! check prints: what it opens to.
#![tactic(auto)]

mod copies;
mod device;
mod head;
mod lines;
mod opened;

pub use device::{Inspection, inspect};
pub use lines::nothing_text;
pub use opened::check;
