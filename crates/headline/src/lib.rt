//! What a run of the program promises, sentence by sentence, as definitions over what its top call concludes.
#![tactic(auto)]

mod laws;

pub use laws::honest_runs_are_whole;
