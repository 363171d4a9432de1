// How a run ends that does not answer all of its lines.
use crate::BadLine;
use thiserror::Error;

/// Why a run ends before its script does, as its last line says it. Lines count from 1.
#[derive(Clone, Copy, Debug, PartialEq, Eq, Error)]
pub enum LastLine {
    #[error("no such command; --help prints the commands")]
    Usage,
    #[error("line {line}, {fault}")]
    BadScript { line: u64, fault: BadLine },
    #[error("a read of the script failed")]
    ReadFault,
    #[error("a device was refused, or a read of it failed")]
    BayFault,
    #[error("line {line} is longer than a line may be")]
    LineTooLong { line: u64 },
    #[error("the script has more lines than may be")]
    TooManyLines,
    #[error("line {line}: no cache stands in which it could be done")]
    NoCache { line: u64 },
}
