//! Where bytes come from and go to, counts of the faults met there, and the lines of a source.
#![tactic(auto)]

mod buffer;
mod laws;
mod memory;
mod reader;
mod sink;
mod source;
mod streams;

pub use buffer::LineBuffer;
pub use laws::texts_have_lines;
pub use memory::{MemSink, MemSource};
pub use reader::{LineFault, LineReader, MAX_LINE_BYTES, MAX_LINES};
pub use sink::Sink;
pub use source::{Failed, Source};
pub use streams::{StdSink, StdSource};
