//! Callers of the lock that are proved: threads that share a tally.
#![tactic(auto)]

mod any;
mod many;
mod tally;
mod ticking;

pub use any::{Outcome, both_stand, once_each, there_and_back};
pub use many::{looked_at, tick_each};
pub use tally::{Tally, TallyRow, Tick};
pub use ticking::{Ticked, is_refused, tick_all, tick_both, tick_once};
