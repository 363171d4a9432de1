//! Which pieces a flush is to copy ahead of the cursor, by a walk over their places.
#![tactic(auto)]

mod finding;

pub use finding::find_due;
