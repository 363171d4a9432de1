//! Runs a script of jobs: workers take the lines behind `split`, each as a turn of one history.
#![tactic(auto)]

mod before;
mod jobs;
mod lines;
mod turns;
mod words;
mod work;

pub use words::run_words;
pub use work::run_work;
