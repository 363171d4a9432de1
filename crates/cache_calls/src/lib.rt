//! What a cache is called for: one trait over the records, which knows no stripe.
#![tactic(auto)]

mod calls;
mod formats;
mod laws;
mod powered;

pub use cache_answers::{Flushed, NextPiece, Opened, Receipt, Refusal, Removal, SwitchOrder};
pub use calls::Calls;
pub use formats::Formats;
pub use laws::{
    added_faults_were_refused, calls_keep, others_stay, readers_stay, reads_leave_others,
    writers_stay,
};
pub use powered::Powered;
