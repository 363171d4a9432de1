//! Workers that share a lock: each has jobs of its own, and each job is a turn.
#![tactic(auto)]

mod all;
mod gate;
mod worker;

pub use all::{Worked, work};
pub use gate::{Gate, Open};
pub use worker::{Worker, do_jobs};
