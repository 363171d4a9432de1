//! What the program promises of a run: its answers, its statuses, and what each says of the logs of the
//! source, the sink and the bay.
#![tactic(auto)]

mod laws;
mod status;

pub use laws::{counts_are_kept, texts_are_output};
pub use status::Status;
