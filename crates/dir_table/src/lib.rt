//! Which places of a stripe a key may have: a row for each piece that is entered.
#![tactic(auto)]

mod directory;
mod displaced;
mod laws;
mod links;
mod list;
mod rows;
mod walks;
mod window;

pub use directory::Directory;
pub use displaced::Displaced;
pub use laws::rows_stay_apart;
pub use list::ListDirectory;
pub use rows::{DirRow, Spot, StoredRow, Walk};
pub use window::Window;
