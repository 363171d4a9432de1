// Why a field is refused, and why bytes are no vector.

ghost use Rattle.std.specs.Prelude.{◌≡◌};

use std::alloc::{AllocError, AllocFailed};
use thiserror::Error;

/// Why a field line was not added: the first that applies.
#[derive(Clone, Copy, Debug, PartialEq, Eq, Error)]
pub enum FieldFault {
    #[error("the name is no field name, or is longer than 256 bytes")]
    Name,
    #[error("the value has a byte that no value may have, or is longer than 8192 bytes")]
    Value,
    #[error("there are 128 field lines already")]
    TooMany,
    #[error("out of memory")]
    Memory(AllocError),
}

/// What is wrong with a vector's bytes: the first fault from the front.
#[derive(Clone, Copy, Debug, PartialEq, Eq, Error)]
pub enum VectorFault {
    #[error("the bytes end within an item")]
    Short,
    #[error("there is no alternate or more than 16, or more than 128 field lines")]
    Count,
    #[error("a name is no field name, is longer than 256 bytes, is not in lower case or is out of order")]
    Name,
    #[error("a value has a byte that no value may have, or is longer than 8192 bytes")]
    Value,
    #[error("a fragment table has too many rows, or another sum than the length of its alternate")]
    Table,
    #[error("bytes follow the last alternate")]
    Rest,
    #[error("out of memory")]
    Memory(AllocError),
}

impl From<AllocError> for FieldFault {
    ghost use Rattle.alternate_vector.specs.declared.fault.FieldFault.TheVariants.{Memory};

    ghost from_gives = { λ e fault. fault ≡ Memory e };

    fn from(e: AllocError) -> Self {
        FieldFault::Memory(e)
    }
}

impl<T: Drop> From<AllocFailed<T>> for FieldFault {
    ghost use Rattle.std.specs.Prelude.{alloc_error};
    ghost use Rattle.alternate_vector.specs.declared.fault.FieldFault.TheVariants.{Memory};

    ghost from_gives = { λ _ fault. fault ≡ Memory alloc_error };

    fn from(_e: AllocFailed<T>) -> Self {
        FieldFault::Memory(AllocError)
    }
}

impl From<AllocError> for VectorFault {
    ghost use Rattle.alternate_vector.specs.declared.fault.VectorFault.TheVariants.{Memory};

    ghost from_gives = { λ e fault. fault ≡ Memory e };

    fn from(e: AllocError) -> Self {
        VectorFault::Memory(e)
    }
}

impl<T: Drop> From<AllocFailed<T>> for VectorFault {
    ghost use Rattle.std.specs.Prelude.{alloc_error};
    ghost use Rattle.alternate_vector.specs.declared.fault.VectorFault.TheVariants.{Memory};

    ghost from_gives = { λ _ fault. fault ≡ Memory alloc_error };

    fn from(_e: AllocFailed<T>) -> Self {
        VectorFault::Memory(AllocError)
    }
}
