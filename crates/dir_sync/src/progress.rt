// How far a copy has been replaced.

/// One pass of a sync: the gate, the body, the gate.
#[derive(Clone, Copy, Debug, PartialEq, Eq)]
pub struct SyncProgress {
    /// The gate was shut for this pass, with a sync behind it.
    pub begun: bool,
    /// The gate is known to be shut.
    pub shut: bool,
    /// Blocks of the body that this pass has written.
    pub written: u64,
}
