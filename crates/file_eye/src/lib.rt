//! An eye on a file that another holds as a device.
#![tactic(auto)]

mod eye;

pub use eye::FileEye;
