// What came of a run, as its caller and the system are told.
ghost use Rattle.std.specs.Prelude.{◌≡◌};
ghost use Rattle.run_promise.specs.Top.{exit_code};

/// What came of a run.
#[derive(Clone, Copy, Debug, PartialEq, Eq)]
pub enum Status {
    Done,
    Usage,
    BadScript,
    ReadFault,
    WriteFault,
    BayFault,
    LineTooLong,
    NoCache,
    OutOfMemory,
    TooManyLines,
}

impl Status {
    /// The exit status of the program.
    pub fn code(self) -> u8
        ensures { result ≡ exit_code self }
    {
        match self {
            Status::Done => 0,
            Status::Usage => 2,
            Status::BadScript => 3,
            Status::ReadFault => 4,
            Status::WriteFault => 5,
            Status::BayFault => 6,
            Status::LineTooLong => 7,
            Status::NoCache => 8,
            Status::OutOfMemory => 9,
            Status::TooManyLines => 10,
        }
    }
}
