//! A session that workers share: their lines are jobs, and all jobs in the order of their turns are
//! one script.
#![tactic(auto)]

mod session;
mod step;

pub use session::{SharedSession, share_session};
pub use step::JobStep;
