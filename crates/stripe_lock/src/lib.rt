//! A ticket lock round a state with a history. Threads make its turns one after another, and each
//! knows where its own turns stand in the one history.
#![tactic(auto)]

mod kept;
mod laws;
mod lock;
mod pass;
mod steps;
mod stripe;
mod view;

pub use kept::{Job, KeptState};
pub use pass::Pass;
pub use steps::{About, Line};
pub use stripe::SharedStripe;
pub use view::{Loaded, PassTurns, Sight, StripeTurn, View};
