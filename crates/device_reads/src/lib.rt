//! Reads of a device that is only read, and what they tell of what it holds.
#![tactic(auto)]

mod laws;
mod reads;

pub use laws::some_image_agrees;
pub use reads::{ReadFault, read};
