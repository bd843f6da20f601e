//! What may be wrong with a report: the first bad line, with the lowest code that it breaks. A reader
//! names a line that is not of its form (C01); a checker names a line that says what is not so.
ghost use Rattle.std.specs.Prelude.{◌≡◌};
ghost use Rattle.seq_cert.specs.BadCodes.{bad_word};
ghost use Rattle.seq_cert.specs.Reading.{bad_at};
ghost use Rattle.seq_cert.specs.declared.fault.ReportFault.TheVariants.{OutOfMemory};

use sig_lines::LineReader;
use std::alloc::{AllocError, AllocFailed};
use thiserror::Error;

/// What a line breaks.
#[derive(Clone, Copy, Debug, PartialEq, Eq)]
pub enum BadCode {
    /// The line is not of the form that its place asks.
    C01,
    /// It differs from the model's mode, counts, weights or labels.
    C02,
    /// It is no line of a strategy that tells the classes apart.
    C03,
    /// The cost is not that of the strategy.
    C04,
    /// The low, the gap, the limit and the verdict do not agree.
    C05,
    /// The group's size, classes or order are wrong.
    C06,
    /// The low is not shown by the bounds and the lows of the parts.
    C07,
    /// The last group is not that of all classes, or has another low.
    C08,
    /// The missed group's size or classes are wrong, or it is listed.
    C09,
}

impl BadCode {
    /// The code as it is printed.
    pub fn word(self) -> &'static str
        ensures { result.now ≡ bad_word self }
    {
        match self {
            BadCode::C01 => "C01",
            BadCode::C02 => "C02",
            BadCode::C03 => "C03",
            BadCode::C04 => "C04",
            BadCode::C05 => "C05",
            BadCode::C06 => "C06",
            BadCode::C07 => "C07",
            BadCode::C08 => "C08",
            BadCode::C09 => "C09",
        }
    }
}

/// A bad line, counted from 1.
#[derive(Clone, Copy, Debug, PartialEq, Eq)]
pub struct BadLine {
    pub line: u32,
    pub code: BadCode,
}

/// Why no report was read, or why a report is refused.
#[derive(Clone, Copy, Debug, PartialEq, Eq, Error)]
pub enum ReportFault {
    #[error("a line of the report is bad")]
    Bad(BadLine),
    #[error("no memory")]
    OutOfMemory,
}

impl From<AllocError> for ReportFault {
    ghost from_gives = { λ _ e. e ≡ OutOfMemory };

    fn from(_e: AllocError) -> ReportFault {
        ReportFault::OutOfMemory
    }
}

impl<T: Drop> From<AllocFailed<T>> for ReportFault {
    ghost from_gives = { λ _ e. e ≡ OutOfMemory };

    fn from(_e: AllocFailed<T>) -> ReportFault {
        ReportFault::OutOfMemory
    }
}

/// The fault of a line that is not of its form: the next line of the reader, also where there is none.
pub(crate) fn bad_line(at: LineReader<'_>) -> ReportFault
    ensures { result ≡ bad_at at.entry.number }
{
    ReportFault::Bad(BadLine {
        line: at.number,
        code: BadCode::C01,
    })
}
