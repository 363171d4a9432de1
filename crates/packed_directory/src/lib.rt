//! A directory whose rows are entries of ten bytes in segments, as they stand on a device.
#![tactic(auto)]

mod beside;
mod fault;
mod image;
mod packed;
mod space;
mod stored;
mod walks;

pub use fault::ImageFault;
pub use packed::PackedDirectory;
pub use stored::StoredDirectory;
pub use walks::AllWalk;
