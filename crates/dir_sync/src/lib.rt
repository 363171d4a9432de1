//! A copy of the directory is replaced behind its gate.
#![tactic(auto)]

mod laws;
mod parts;
mod progress;
mod run;

pub use laws::{a_copy_is_shut_or_whole, runs_go_on};
pub use progress::SyncProgress;
pub use run::{SyncFault, SyncRun, SyncState};
