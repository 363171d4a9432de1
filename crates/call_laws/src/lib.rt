//! What a call of a cache did, as one statement for all of them, and its laws.
#![tactic(auto)]

mod laws;
mod promise;

pub use laws::{
    calls_join, grows_with_more, lookups_ask, records_are_backed, records_serve, serves_begins,
    serves_fails, serves_keeps, serves_known, serves_next, serves_part, serves_short, serves_step,
    serves_still, serves_then, serves_told,
};
pub use promise::Promise;
