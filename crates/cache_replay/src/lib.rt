//! Sessions: the steps of a script on a cache, whose device comes from a bay.
#![tactic(auto, using(logged_disk::proofs::GoingOn::stays_as))]

mod answers;
mod bare_lines;
mod beginning;
mod feeding;
mod getting;
mod plain_lines;
mod put_line;
mod putting;
mod reader_lines;
mod session;
mod stepping;
mod stop;
mod switch_lines;
mod writer_lines;

pub use beginning::{begin, close, plays_reach};
pub use session::{Bare, Replay, Session};
pub use stepping::{has_cache, in_session, step, takes_actors};
pub use stop::Stop;
