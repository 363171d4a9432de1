//! What a device opens to: it is read alone, each block of it at most once, and what stands there is answered.
#![tactic(auto)]

mod copies;
mod device;
mod fault;
mod head;
mod kept;
mod newest;
mod opening;
mod search;
mod span;
mod standing;
mod stretch;
mod window;

pub use device::{NewestRead, read_newest};
pub use fault::OpeningFault;
pub use newest::{Chosen, Taken};
pub use opening::{OpeningRead, read_opening};
