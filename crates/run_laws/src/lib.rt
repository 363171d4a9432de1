//! Laws of accounts: how runs end, what their devices refused and gave, and which runs agree.
#![tactic(auto)]

mod laws;

pub use laws::{
    counts_are_reached, damage_was_given, done_where_fine, ends_are_caused, faults_were_refused,
    histories_agree_before_trouble, no_false_damage, no_false_faults, pairs_are_doubted,
    runs_agree_before_trouble, runs_are_told, source_fixes_sink, switched_runs_are_steady,
};
