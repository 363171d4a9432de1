// Why no put is opened.

use std::alloc::AllocError;
use thiserror::Error;

/// Why no put was opened.
#[derive(Clone, Copy, Debug, PartialEq, Eq, Error)]
pub enum OpenPutRefusal {
    #[error("as many writers are open as may be")]
    TooManyWriters,
    #[error("the put behind the next one would be number {number}, which no put may have")]
    Exhausted { number: u64 },
    #[error("out of memory")]
    Memory(AllocError),
}
