//! The law of a format: what a cut may leave behind it opens to the empty sync.
#![tactic(auto)]

mod laws;

pub use laws::a_format_opens;
