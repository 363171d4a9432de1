//! Who writes and who reads: the open writers, and the readers that follow them.
#![tactic(auto)]

mod directory;
mod index;
mod kept;
mod nexts;
mod puts;
mod readers;
mod refusal;

pub use directory::OpenDirectory;
pub use kept::PutState;
pub use refusal::OpenRefusal;
