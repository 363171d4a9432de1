//! What the lines of a script do to a cache and answer: definitions over the records of its sessions,
//! and their laws.
#![tactic(auto)]

mod laws;

pub use laws::{
    all_is_followed, all_is_given, flush_owns, formats_keep, formats_own, given_is_listed,
    hit_is_put, own_is_as_listed, own_is_kept, read_is_own, reads_keep, reads_own, shown_are_given,
    steps_keep, steps_own, stopped_owns,
};
