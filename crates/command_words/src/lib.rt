//! The words of a command line: which are a command, what it asks for, and what the program prints of itself.
#![tactic(auto)]

mod command;
mod line;
mod read;
mod texts;

pub use command::Command;
pub use read::read_words;
pub use texts::{help_text, version_text};
