//! Reading a log: what the tests found, line by line, or the first bad line with the lowest code that it breaks. The reading ends there,
//! so the work is linear in the bytes that are read, and each line takes a look at the tests and at what was found.

ghost use Rattle.std.specs.Prelude.{◌≡◌, ◌<◌, ◌≤◌, ◌+◌, length, All, IfOk, IfErr, IfSome, IfNone};
ghost use Rattle.sig_lines.specs.Pieces.{lines_in, tail_in};
ghost use Rattle.sig_reason.specs.declared.found.Finding.{Finding};
ghost use Rattle.sig_reason.specs.declared.log.LogFault.TheVariants.{OutOfMemory};
ghost use Rattle.sig_reason.specs.Log.{IsLog, IsNoLog};
ghost use Rattle.sig_reason.specs.LogSteps.{IsAtEnd, IsNext, IsBadHere};

use crate::found::Finding;
use crate::log_line::{LogCode, finding_of};
use sig_lines::{LineReader, line_of, lines_hold};
use sig_matrix::Matrix;
use std::alloc::{AllocError, AllocFailed, Global};
use thiserror::Error;

/// A bad line of a log, counted from 1.
#[derive(Clone, Copy, Debug, PartialEq, Eq)]
pub struct BadLogLine {
    pub line: u32,
    pub code: LogCode,
}

/// Why no log was read.
#[derive(Clone, Copy, Debug, PartialEq, Eq, Error)]
pub enum LogFault {
    #[error("a line of the log is bad")]
    BadLine(BadLogLine),
    #[error("no memory")]
    OutOfMemory,
}

impl From<AllocError> for LogFault {
    ghost from_gives = { λ _ e. e ≡ OutOfMemory };

    fn from(_e: AllocError) -> LogFault {
        LogFault::OutOfMemory
    }
}

impl<T: Drop> From<AllocFailed<T>> for LogFault {
    ghost from_gives = { λ _ e. e ≡ OutOfMemory };

    fn from(_e: AllocFailed<T>) -> LogFault {
        LogFault::OutOfMemory
    }
}

/// The fault of the reader's next line.
fn bad_at(at: LineReader<'_>, code: LogCode) -> BadLogLine
    ensures line { result.line ≡ at.entry.number }
    ensures code { result.code ≡ code }
{
    BadLogLine {
        line: at.number,
        code,
    }
}

/// What the next line says, with the reader behind it; None at the end.
fn next_finding<'a>(
    matrix: &Matrix,
    found: &[Finding],
    at: LineReader<'a>,
) -> Result<Option<(Finding, LineReader<'a>)>, BadLogLine>
    requires { length matrix.now.tests ≤ 256 }
    ensures next { IfOk result (λ step. IfSome step (λ x. IsNext matrix.now found.now (lines_in at.entry.rest.now) x.0 (lines_in x.1.rest.now))) }
    ensures there { IfOk result (λ step. IfSome step (λ x. x.0.test < length matrix.now.tests)) }
    ensures tail { IfOk result (λ step. IfSome step (λ x. tail_in at.entry.rest.now ≡ tail_in x.1.rest.now)) }
    ensures number { IfOk result (λ step. IfSome step (λ x. x.1.number ≡ at.entry.number + 1)) }
    ensures shorter { IfOk result (λ step. IfSome step (λ x. length x.1.rest.now < length at.entry.rest.now)) }
    ensures end { IfOk result (λ step. IfNone step (IsAtEnd (lines_in at.entry.rest.now) (tail_in at.entry.rest.now))) }
    ensures bad { IfErr result (IsBadHere matrix.now found.now at.entry.number (lines_in at.entry.rest.now) (tail_in at.entry.rest.now)) }
{
    lines_hold();
    match line_of(at) {
        Some((line, after)) => match finding_of(matrix, found, line) {
            Ok(finding) => Ok(Some((finding, after))),
            Err(code) => Err(bad_at(at, code)),
        },
        None => {
            if at.rest.len() == 0 {
                Ok(None)
            } else {
                Err(bad_at(at, LogCode::L01))
            }
        }
    }
}

/// What the lines of a reader at the first line say.
fn findings_of(
    alloc: Global,
    matrix: &Matrix,
    start: LineReader<'_>,
) -> Result<Vec<Finding>, LogFault>
    requires tests { length matrix.now.tests ≤ 256 }
    requires first { start.number ≡ 1 }
    ensures log { IfOk result (λ found. IsLog matrix.now start.entry.rest.now found.items) }
    ensures there { IfOk result (λ found. All (λ (x : Finding). x.test < length matrix.now.tests) found.items) }
    ensures bad { IfErr result (IsNoLog matrix.now start.entry.rest.now) }
{
    let mut found = Vec::new(alloc);
    let mut at = start;
    loop {
        match next_finding(matrix, found.as_slice(), at) {
            Ok(Some((finding, after))) => {
                found.push(finding)?;
                at = after;
            }
            Ok(None) => return Ok(found),
            Err(bad) => return Err(LogFault::BadLine(bad)),
        }
    }
}

/// What the log says of the tests, in its order; else the first bad line. A text is a log where each line is `pass LABEL` or `fail LABEL`
/// with LF, of a test of the matrix that no line before it names.
pub fn read_log(alloc: Global, matrix: &Matrix, bytes: &[u8]) -> Result<Vec<Finding>, LogFault>
    requires tests { length matrix.now.tests ≤ 256 }
    requires bytes { length bytes.now ≤ 1048576 }
    ensures log { IfOk result (λ found. IsLog matrix.now bytes.now found.items) }
    ensures there { IfOk result (λ found. All (λ (x : Finding). x.test < length matrix.now.tests) found.items) }
    ensures bad { IfErr result (IsNoLog matrix.now bytes.now) }
{
    let start = LineReader {
        rest: bytes,
        number: 1,
    };
    findings_of(alloc, matrix, start)
}
