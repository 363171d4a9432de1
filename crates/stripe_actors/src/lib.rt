//! Who writes and reads on a stripe, kept in step with the records.
#![tactic(auto)]

mod actors;
mod laws;
mod refusal;

pub use actors::Actors;
pub use laws::{
    alike_stay_in_step, followed_is_found, followed_is_told, kept_is_told, next_is_told,
    open_is_writing, others_stay_in_step, put_was_given, reader_was_given, writers_are_counted,
    writing_is_told,
};
pub use refusal::OpenPutRefusal;
