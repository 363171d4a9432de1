//! What devices, sources and sinks did, call by call, for clauses alone.
#![tactic(auto)]

mod choice;
mod laws;
mod log;
mod rows;
mod streams;

pub use choice::CutChoice;
pub use laws::{cuts_leave, faults_are_counted, writes_are_seen};
pub use log::DeviceLog;
pub use rows::GhostRows;
pub use streams::{SinkLog, SourceLog};
