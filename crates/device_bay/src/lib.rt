//! Bays: what gives block devices by name and takes them back, and tells each of its calls.
#![tactic(auto)]

mod bay;
mod device_file;
mod entries;
mod host_bay;
mod host_disk;
mod laws;
mod mem_bay;
mod register;

pub use bay::{Bay, BayFault};
pub use device_file::{NoDevice, Start};
pub use host_bay::{HostBay, Refusal};
pub use host_disk::HostDisk;
pub use laws::returns_tell;
pub use mem_bay::{MemBay, OWN_BLOCKS};
pub use register::Register;
