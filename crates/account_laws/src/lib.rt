//! Laws of accounts: what is got, hit and followed, and what a recorded end was answered; with the lemmas that others share.
#![tactic(auto)]

mod laws;

pub use laws::{
    completed_was_answered, follow_was_put, giving_up_was_answered, got_is_whole, hit_is_whole,
    removal_was_answered,
};
