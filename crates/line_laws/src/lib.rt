//! What a line of a script keeps of what stands, and of the put and the reader of each actor.
#![tactic(auto)]

mod laws;

pub use laws::{fragments_given, legal_is_kept, legal_is_own, own_is_kept_along};
