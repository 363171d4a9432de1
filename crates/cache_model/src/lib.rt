//! What the records of a session mean: the record types, and every definition over them.
#![tactic(auto)]

mod answer;
mod cause;
mod findings;
mod laws;
mod record;

pub use answer::{NextAnswer, ReadAnswer};
pub use cause::Cause;
pub use findings::{FoundList, FoundRow};
pub use laws::{live_vector_is_listed, vector_is_read_back};
pub use record::Rec;
