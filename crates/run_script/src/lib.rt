//! Runs the script that a source holds, over any cache: what each status says of the streams and the devices.
#![tactic(auto)]

mod inspect;
mod lines;
mod run;
mod words;

pub use run::{Ending, Halt, ending_of, last_of, take_step};
pub use words::{conclude, run_command, run_words};
