// Why a call of the open directory is refused.

ghost use Rattle.std.specs.Prelude.{◌≡◌};

use std::alloc::{AllocError, AllocFailed};
use thiserror::Error;

/// Why a call changed nothing.
#[derive(Clone, Copy, Debug, PartialEq, Eq, Error)]
pub enum OpenRefusal {
    #[error("as many writers are open as may be")]
    TooManyWriters,
    #[error("no writer of that put is open")]
    NoSuchWriter,
    #[error("out of memory")]
    Memory(AllocError),
}

impl From<AllocError> for OpenRefusal {
    ghost use Rattle.open_directory.specs.declared.refusal.OpenRefusal.TheVariants.{Memory};

    ghost from_gives = { λ e refusal. refusal ≡ Memory e };

    fn from(e: AllocError) -> Self {
        OpenRefusal::Memory(e)
    }
}

impl<T: Drop> From<AllocFailed<T>> for OpenRefusal {
    ghost use Rattle.std.specs.Prelude.{alloc_error};
    ghost use Rattle.open_directory.specs.declared.refusal.OpenRefusal.TheVariants.{Memory};

    ghost from_gives = { λ _ refusal. refusal ≡ Memory alloc_error };

    fn from(_e: AllocFailed<T>) -> Self {
        OpenRefusal::Memory(AllocError)
    }
}
