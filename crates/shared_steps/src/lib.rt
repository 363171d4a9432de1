//! What takes steps one after the other, shared by workers: each step is a turn of one history.
#![tactic(auto)]

mod job;
mod shared;
mod steps;

pub use job::{Answered, StepJob, take_all};
pub use shared::{SharedSteps, StepRecord, StepRow, Taken};
pub use steps::TakesSteps;
