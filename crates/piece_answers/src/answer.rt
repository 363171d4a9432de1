// What the calls of the pieces answer, and why they stop.
ghost use Rattle.std.specs.Prelude.{◌≡◌};

use cache_answers::Refusal;
use cache_model::Cause;
use tape_base::Digest;
use thiserror::Error;

/// A piece that was placed.
#[derive(Clone, Copy, Debug, PartialEq, Eq)]
pub struct Placed {
    pub place: u64,
    /// The digest of its payload.
    pub payload: Digest,
}

/// What was found of a piece.
#[derive(Clone, Copy, Debug, PartialEq, Eq)]
pub enum Found {
    /// Its payload, of so many bytes.
    Found { length: u32 },
    Missing(Cause),
}

/// Why the tape was not written on.
#[derive(Clone, Copy, Debug, PartialEq, Eq, Error)]
pub enum Stop {
    /// Its count of faults then stood at `count`.
    #[error("the device refused a call")]
    DeviceFault { count: u64 },
    /// This place would reach the end of the tape: that at which a piece would end, or, where the
    /// buffer was to be written out, the latest at which its copies end.
    #[error("place {number} would reach the end of the tape")]
    Exhausted { number: u64 },
}

impl From<Stop> for Refusal {
    ghost use Rattle.piece_answers.specs.Refusals.{refusal_of};

    ghost from_gives = { λ stop refusal. refusal ≡ refusal_of stop };

    fn from(stop: Stop) -> Refusal {
        match stop {
            Stop::DeviceFault { count } => Refusal::DeviceFault { count },
            Stop::Exhausted { number } => Refusal::Exhausted { number },
        }
    }
}
