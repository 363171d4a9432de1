//! The headers of a stripe on its device: the span, and the two copies of the directory.
#![tactic(auto)]

mod area;
mod copies;
mod fields;
mod laws;
mod spans;
mod states;

pub use area::{Area, Side};
pub use copies::{read_copy, write_body};
pub use laws::copies_are_told;
pub use spans::{read_span, write_span};
pub use states::{CopyFault, CopyState, Span, SpanFault};
