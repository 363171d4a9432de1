//! What the calls on pieces answer, and what each does: to the records, on the device and in the memory of a flush.
#![tactic(auto)]

mod ahead;
mod answer;

pub use ahead::{Ahead, Fate};
pub use answer::{Found, Placed, Stop};
