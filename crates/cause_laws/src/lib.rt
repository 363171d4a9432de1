//! Laws of accounts: why a line finds nothing, breaks or loses a fragment.
#![tactic(auto)]

mod laws;

pub use laws::{
    aborted_was_last, absences_are_caused, break_was_aborted, break_was_displaced,
    break_was_passed, breaks_are_caused, displaced_was_told, end_is_read, found_is_listed,
    get_was_displaced, get_was_passed, gets_are_caused, losses_are_caused, lost_was_displaced,
    misses_are_caused, never_put_was_none, no_match_fits_none, passed_was_placed,
    removed_was_recorded, vector_was_lost,
};
