//! The script language: which line is which step, and what text each answer has.
#![tactic(auto)]

mod fields;
mod jobs;
mod last;
mod laws;
mod left;
mod reader;
mod steps;
mod text;
mod tokens;
mod verbs;
mod words;

pub use jobs::{JobLine, read_job_line, read_split};
pub use last::{last_line_text, usage_text};
pub use laws::{answers_are_lines, last_lines_are_lines, spelled_is_read};
pub use reader::read_line;
pub use text::answer_text;
