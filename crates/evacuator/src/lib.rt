//! Chooses which pieces are copied ahead of the cursor, within a budget of blocks.
#![tactic(auto)]

mod choosing;

pub use choosing::{Candidate, choose};
