//! Laws of whole lines of a script, which follow from the definitions of what lines do and answer.
#![tactic(auto)]

mod laws;

pub use laws::{
    answers_are_traced, causes_are_traced, damage_is_recorded, damage_stays, fault_is_recorded,
    fault_stays, faultless_runs, faultless_turns, formats_lose_none, lines_agree_before_trouble,
    losses_stay, output_is_fixed, refusal_is_recorded, runs_are_counted, sessions_are_legal,
    turns_tell_refusals, undamaged_runs, undamaged_turns, vectors_are_on_record,
};
