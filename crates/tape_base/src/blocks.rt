// How many blocks a document takes.
ghost use Rattle.std.specs.Prelude.{◌≡◌, ◌≤◌, ◌<◌, ◌^◌};
ghost use Rattle.tape_base.specs.Blocks.{blocks_of};

use crate::sizes::{BLOCK, HEADER};

/// The blocks of a document whose payload has this length in bytes.
pub fn blocks_of(length: u32) -> u32
    requires { length ≤ 2 ^ 31 }
    ensures { result ≡ blocks_of length }
{
    blocks_of_document(length as u64) as u32
}

pub fn blocks_of_document(length: u64) -> u64
    requires { length < 2 ^ 32 }
    ensures { result ≡ blocks_of length }
{
    (HEADER as u64 + length).div_ceil(BLOCK as u64)
}
