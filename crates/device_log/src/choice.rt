// Which kinds of power cuts there are.

/// What a cut leaves of a device's pending blocks.
#[derive(Clone, Copy, Debug, PartialEq, Eq)]
pub enum CutChoice {
    /// What was there before.
    Lost,
    /// What was written.
    Kept,
    /// Of each write its first block, and junk in the others.
    Torn,
    /// Junk.
    Junk,
}
