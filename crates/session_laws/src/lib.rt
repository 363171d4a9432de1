//! Laws of whole sessions: what syncs hold, what is forgotten, room in the directory, and the payloads of fragments.
#![tactic(auto)]

mod laws;
pub mod sync_laws;

pub use laws::{
    few_are_dead, forgetting_counts, forgetting_is_sound, forgetting_leaves, forgetting_tells,
    forgetting_twice, forgotten_is_dead, forgotten_is_unrecorded, given_stays, greatest_are_kept,
    group_fits, insert_fits, kept_is_answered, known_are_falling, legal_fits, less_fits,
    move_displaces_nothing, named_is_kept, no_record_is_told, opened_is_told, payloads_are_cut,
    plain_displaces_nothing, reader_is_answered, slot_is_made, step_fits, tenth_is_displaced,
    written_is_kept,
};
