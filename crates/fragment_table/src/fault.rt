// Why a table could not be read.

ghost use Rattle.std.specs.Prelude.{◌≡◌};
ghost use Rattle.fragment_table.specs.declared.fault.TableFault.TheVariants.{Memory};

use std::alloc::AllocError;
use thiserror::Error;

/// What is wrong with a table's bytes: the first that applies.
#[derive(Clone, Copy, Debug, PartialEq, Eq, Error)]
pub enum TableFault {
    #[error("the bytes end within the table")]
    Short,
    #[error("the table has more than 4096 rows")]
    Count,
    #[error("a row has no bytes, or the lengths of the rows have another sum than was asked for")]
    Sum,
    #[error("out of memory")]
    Memory(AllocError),
}

impl From<AllocError> for TableFault {
    ghost from_gives = { λ e fault. fault ≡ Memory e };

    fn from(e: AllocError) -> Self {
        TableFault::Memory(e)
    }
}
