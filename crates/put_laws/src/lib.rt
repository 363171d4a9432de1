//! Laws of accounts: what a line that is answered a put recorded, and which bytes its writer took.
#![tactic(auto)]

mod laws;

pub use laws::{
    answered_abort_was_recorded, answered_put_was_completed, answered_removal_was_recorded,
    closed_put_stays, data_took_its_bytes, got_is_the_body, put_took_its_body,
};
