//! The law of a whole sync: what a cut may leave while a copy is replaced, and what is then known.
#![tactic(auto)]

mod laws;

pub use laws::{a_sync_is_guarded, copies_are_known};
