//! Reasoning over a log: what each fault is called for what the tests found, where several faults may be present at once; or the test that
//! no set of faults explains, or the first bad line of the log.
ghost use Rattle.std.specs.Prelude.{◌≡◌, ◌<◌, ◌≤◌, length, All, IfOk, OnOk};
ghost use Rattle.sig_lines.specs.Written.{with_line};
ghost use Rattle.sig_matrix.specs.Valid.{IsValid};
ghost use Rattle.sig_reason.specs.declared.found.Finding.{Finding};
ghost use Rattle.sig_reason.specs.FaultSets.{IsPossible};
ghost use Rattle.sig_reason.specs.Labelling.{AreCalled, IsConflict, case_of};
ghost use Rattle.sig_reason.specs.Log.{IsLog, IsFirstBadLine};
ghost use Rattle.teams_run.specs.Reasoned.{IsReasoning, bad_log_line, bad_log_words, conflict_line, conflict_words};

use crate::due::Due;
use crate::status::Status;
use sig_lines::Lines;
use sig_matrix::Matrix;
use sig_reason::{
    BadLogLine, Finding, Labelled, LogFault, ReasonFault, label_of, read_log, reason_text,
};
use std::alloc::{AllocError, Global};

/// Writes the line of a log that is rejected.
fn write_bad_log(out: &mut Lines, bad: BadLogLine) -> Result<(), AllocError>
    ensures { OnOk result (out.new ≡ with_line out.old (bad_log_words bad)) }
{
    out.word("rejected")?;
    out.word("line")?;
    out.number(u64::from(bad.line))?;
    out.word(bad.code.word())?;
    out.end_line()
}

fn bad_log_line(alloc: Global, bad: BadLogLine) -> Result<Vec<u8>, AllocError>
    ensures { IfOk result (λ text. text.items ≡ bad_log_line bad) }
{
    let mut out = Lines::new(alloc);
    write_bad_log(&mut out, bad)?;
    Ok(out.into_bytes())
}

/// Writes the line of a test that no set of faults explains.
fn write_conflict(out: &mut Lines, matrix: &Matrix, test: u32) -> Result<(), AllocError>
    requires { test < length matrix.now.tests }
    ensures { OnOk result (out.new ≡ with_line out.old (conflict_words matrix.now test)) }
{
    let column = &matrix.tests.as_slice()[test as usize];
    out.word("conflict")?;
    out.word(column.label.as_str())?;
    out.end_line()
}

fn conflict_line(alloc: Global, matrix: &Matrix, test: u32) -> Result<Vec<u8>, AllocError>
    requires { test < length matrix.now.tests }
    ensures { IfOk result (λ text. text.items ≡ conflict_line matrix.now test) }
{
    let mut out = Lines::new(alloc);
    write_conflict(&mut out, matrix, test)?;
    Ok(out.into_bytes())
}

/// What is due for a log with a bad line.
fn bad_log_due(
    alloc: Global,
    matrix: &Matrix,
    mode: &str,
    log: &[u8],
    bad: BadLogLine,
) -> Result<Due, AllocError>
    requires { IsFirstBadLine matrix.now log.now bad }
    ensures { IfOk result (λ due. IsReasoning matrix.now mode.now log.now due.status due.text.items) }
{
    let text = bad_log_line(alloc, bad)?;
    Ok(Due {
        status: Status::Rejected,
        text,
    })
}

/// What is due where no set of faults explains what was found.
#[tactic(auto, using(crate::proofs::ReasonLaws::conflict_there))]
fn conflict_due(
    alloc: Global,
    matrix: &Matrix,
    mode: &str,
    log: &[u8],
    found: &[Finding],
    test: u32,
) -> Result<Due, AllocError>
    requires log { IsLog matrix.now log.now found.now }
    requires there { All (λ (x : Finding). x.test < length matrix.now.tests) found.now }
    requires conflict { IsConflict (case_of matrix.now found.now) test }
    ensures { IfOk result (λ due. IsReasoning matrix.now mode.now log.now due.status due.text.items) }
{
    let text = conflict_line(alloc, matrix, test)?;
    Ok(Due {
        status: Status::Conflict,
        text,
    })
}

/// What is due where each fault is called something.
fn labels_due(
    alloc: Global,
    matrix: &Matrix,
    mode: &str,
    log: &[u8],
    found: &[Finding],
    labelled: &Labelled,
) -> Result<Due, AllocError>
    requires log { IsLog matrix.now log.now found.now }
    requires possible { IsPossible (case_of matrix.now found.now) }
    requires called { AreCalled (case_of matrix.now found.now) labelled.now.labels.items }
    ensures { IfOk result (λ due. IsReasoning matrix.now mode.now log.now due.status due.text.items) }
{
    let text = reason_text(alloc, matrix, labelled.labels.as_slice(), mode)?;
    Ok(Due {
        status: Status::Done,
        text,
    })
}

/// What is due for what a log says was found.
fn findings_due(
    alloc: Global,
    matrix: &Matrix,
    mode: &str,
    log: &[u8],
    found: &[Finding],
) -> Result<Due, AllocError>
    requires valid { IsValid matrix.now }
    requires log { IsLog matrix.now log.now found.now }
    requires there { All (λ (x : Finding). x.test < length matrix.now.tests) found.now }
    ensures { IfOk result (λ due. IsReasoning matrix.now mode.now log.now due.status due.text.items) }
{
    match label_of(alloc, matrix, found) {
        Ok(labelled) => labels_due(alloc, matrix, mode, log, found, &labelled),
        Err(ReasonFault::Conflict { test }) => {
            conflict_due(alloc, matrix, mode, log, found, test)
        }
        Err(ReasonFault::OutOfMemory) => Err(AllocError),
    }
}

/// What is due for the bytes of a log.
pub fn reasoning_on(
    alloc: Global,
    matrix: &Matrix,
    mode: &str,
    log: &[u8],
) -> Result<Due, AllocError>
    requires valid { IsValid matrix.now }
    requires short { length log.now ≤ 1048576 }
    ensures { IfOk result (λ due. IsReasoning matrix.now mode.now log.now due.status due.text.items) }
{
    match read_log(alloc, matrix, log) {
        Ok(found) => findings_due(alloc, matrix, mode, log, found.as_slice()),
        Err(LogFault::BadLine(bad)) => bad_log_due(alloc, matrix, mode, log, bad),
        Err(LogFault::OutOfMemory) => Err(AllocError),
    }
}
