//! What steps of a session keep and tell: the laws of `cache_model` that the lines of a script rest on.
#![tactic(auto)]

mod laws;

pub use laws::writer_is_ended;
