//! What the calls of a cache answer.
#![tactic(auto)]

mod answers;

pub use answers::{Flushed, NextPiece, Opened, Receipt, Refusal, Removal, SwitchOrder};
