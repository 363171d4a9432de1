//! Laws of the records of a session: what follows from the definitions of `cache_model`, as sentences.
#![tactic(auto)]

mod laws;

pub use laws::{
    all_is_cut_first, answered_is_tried, asked_is_answered, complete_is_hit, count_is_listed,
    displacements_agree, due_are_found, empty_flush, end_is_whole, faults_rise, floor_is_last,
    flush_is_sound, flush_tells, followed_is_closed, formats_count, formats_tell,
    formatted_is_empty, found_is_there, fragment_is_cut, front_is_backed, given_are_tried,
    given_is_own, given_is_read, group_is_fixed, groups_agree, groups_count, groups_tell,
    hit_is_read, hit_matches, kept_are_chosen, legal_is_sound, live_is_known, live_is_removed,
    lookup_is_one, merged_is_spelled, moved_is_there, nothing_asked, numbers_follow, one_group,
    openings_are_sound, openings_count, openings_tell, outcomes_are_fixed, outcomes_are_found,
    outcomes_are_tried, pairs_are_given, pairs_are_read, passed_is_missed, passed_is_not_live,
    place_follows, place_is_last, places_stay_below, reader_is_closed, refusal_ends,
    removed_is_missed, replaced_is_nowhere, steps_agree, steps_are_sound, steps_count, steps_tell,
    stopped_is_backed, stopped_is_sound, stopped_tells, taken_is_nowhere, too_large_is_not_placed,
    trouble_is_backed, unanswered_is_counted, vector_is_last, vectors_are_kept, waits_for_open,
    walk_finds, walk_goes_on,
};
