//! How a call of the program ends, with the number that the process ends with.
ghost use Rattle.std.specs.Prelude.{◌≡◌};

/// How the program ended. Statuses 0, 1, 3, 7 and 10 say that the sink took the whole text.
#[derive(Clone, Copy, Debug, PartialEq, Eq)]
pub enum Status {
    /// The action succeeded, and its text was written.
    Done,
    /// The model text is refused, and the line that says why was written.
    ModelRefused,
    /// The words aren't a plan.
    Usage,
    /// The limit of groups was met, and a right strategy with its gap was written.
    Bounded,
    /// The shelf failed.
    ReadFault,
    /// The sink failed, and took a part of the text.
    WriteFault,
    /// Memory was refused.
    NoMemory,
    /// The certificate, or the log, has a bad line, which was named.
    Rejected,
    /// There is no such file.
    Missing,
    /// A file is longer than its limit.
    TooLong,
    /// No set of faults explains what the log says was found, and a test that shows it was named.
    Conflict,
}

impl Status {
    ghost use Rattle.teams_run.specs.Statuses.{status_number};

    /// The number that the process ends with.
    pub fn number(&self) -> u8
        ensures { result ≡ status_number self.now }
    {
        match self {
            Status::Done => 0,
            Status::ModelRefused => 1,
            Status::Usage => 2,
            Status::Bounded => 3,
            Status::ReadFault => 4,
            Status::WriteFault => 5,
            Status::NoMemory => 6,
            Status::Rejected => 7,
            Status::Missing => 8,
            Status::TooLong => 9,
            Status::Conflict => 10,
        }
    }
}
