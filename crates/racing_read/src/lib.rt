//! Reads of a device that race the holder of a lock, who writes it.
#![tactic(auto)]

mod laws;
mod log;
mod peek;
mod reading;
mod ticket;

pub use laws::{given_is_document, passed_stays_passed, race_is_decided, races_see_later_floors};
pub use log::RaceLog;
pub use peek::Peek;
pub use reading::racing_read;
pub use ticket::{Raced, Ticket};
