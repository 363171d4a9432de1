//! A buffer on its device: how much of it is durable, and a sync behind it.
#![tactic(auto)]

mod buffer;
mod laws;

pub use buffer::{BufferOnDevice, Halt, write_and_sync, write_buffer};
pub use laws::covered_stands;
