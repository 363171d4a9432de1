//! The aggregation buffer: pieces gather in memory, one behind another, until one write places all.
#![tactic(auto)]

mod answers;
mod buffer;

pub use answers::PutAnswer;
pub use buffer::AggBuffer;
