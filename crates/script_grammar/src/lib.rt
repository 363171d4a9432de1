//! What the script language is: steps, answers and last lines as values, the grammar of lines, and the texts of answers.
#![tactic(auto)]

mod answer;
mod last_line;
mod line;
mod sides;
mod step;
mod verb;

pub use answer::{Refused, StepAnswer};
pub use last_line::LastLine;
pub use line::{BadKind, BadLine, LineAnswer};
pub use sides::{FieldKinds, Sides};
pub use step::{ByteList, Step};
pub use verb::Verb;
