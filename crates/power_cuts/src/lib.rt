//! What a power cut may leave of a session, along the calls that its device makes.
#![tactic(auto)]

mod laws;

pub use laws::sessions_survive;
