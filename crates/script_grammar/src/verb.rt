// What kind of step a line is, by its first word.

#[derive(Clone, Copy, Debug, PartialEq, Eq)]
pub enum Verb {
    Format,
    Put,
    Get,
    OpenWrite,
    Data,
    Close,
    Abort,
    OpenRead,
    Next,
    Done,
    Remove,
    Flush,
    Now,
    Fail,
    StopAfter,
    Flip,
    Cut,
}
