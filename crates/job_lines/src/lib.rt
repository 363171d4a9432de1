//! The lines behind `split` of `work`: read to the end of the script, they are the steps of workers.
#![tactic(auto)]

mod asked;
mod owned;
mod reading;

pub use asked::Asked;
pub use reading::read_jobs;
