//! The check of a certificate: whether its bytes are a report that shows what it says, or which line is
//! the first bad one. Whoever made the certificate is not trusted.
ghost use Rattle.std.specs.Prelude.{◌≡◌, ◌≤◌, length, IfOk, IfErr, OnOk};
ghost use Rattle.seq_theory.specs.States.{IsOfClasses};
ghost use Rattle.seq_inst.specs.Instances.{problem_of};
ghost use Rattle.sig_matrix.specs.Detection.{system_of};
ghost use Rattle.sig_classes.specs.Labels.{labels_from};
ghost use Rattle.sig_lines.specs.Written.{with_line};
ghost use Rattle.seq_cert.specs.LabelsOf.{AreLabelsOf};
ghost use Rattle.seq_check.specs.Shown.{Shows};
ghost use Rattle.teams_run.specs.Ready.{IsPrepared};
ghost use Rattle.teams_run.specs.Judged.{IsFirstBad, IsGood, IsJudgement, ShowsStates, TellsBad, accepted_words, accepted_line, rejected_words, rejected_line};

use crate::due::Due;
use crate::preparing::Prepared;
use crate::status::Status;
use seq_cert::{BadLine, Report, ReportFault, read_report};
use seq_check::check;
use seq_inst::Instance;
use seq_theory::passage_holds;
use sig_lines::{Labels, Lines};
use sig_matrix::Matrix;
use std::alloc::{AllocError, Global};

/// The report whose text the bytes are, where no line of it is bad.
#[tactic(auto, using(crate::proofs::BadLaws::bad_form, crate::proofs::BadLaws::bad_look))]
fn good_report(
    alloc: Global,
    inst: &Instance,
    labels: &Labels,
    cert: &[u8],
) -> Result<Report, ReportFault>
    requires labels { AreLabelsOf (problem_of inst.now) labels.now }
    requires short { length cert.now ≤ 16777216 }
    ensures good { IfOk result (IsGood (problem_of inst.now) labels.now cert.now) }
    ensures bad { IfErr result (TellsBad (problem_of inst.now) labels.now cert.now) }
{
    let report = read_report(alloc, cert)?;
    match check(alloc, inst, labels, &report) {
        Ok(_verdict) => Ok(report),
        Err(fault) => Err(fault),
    }
}

/// What a certified report shows of the ambiguity groups it shows of the states.
fn report_stands(matrix: &Matrix, inst: &Instance, report: &Report)
    requires inst { IsOfClasses (system_of matrix.now) (problem_of inst.now) }
    requires shows { Shows (problem_of inst.now) report.now }
    ensures { ShowsStates (system_of matrix.now) (problem_of inst.now) report.now }
{
    passage_holds();
}

/// Writes the line of a certificate that is accepted.
fn write_accepted(out: &mut Lines, report: &Report) -> Result<(), AllocError>
    ensures { OnOk result (out.new ≡ with_line out.old (accepted_words report.now)) }
{
    out.word("accepted")?;
    out.word(report.verdict.word())?;
    out.word("cost")?;
    out.number(report.cost)?;
    out.word("low")?;
    out.number(report.low)?;
    out.end_line()
}

fn accepted_line(alloc: Global, report: &Report) -> Result<Vec<u8>, AllocError>
    ensures { IfOk result (λ text. text.items ≡ accepted_line report.now) }
{
    let mut out = Lines::new(alloc);
    write_accepted(&mut out, report)?;
    Ok(out.into_bytes())
}

/// Writes the line of a certificate that is rejected.
fn write_rejected(out: &mut Lines, bad: BadLine) -> Result<(), AllocError>
    ensures { OnOk result (out.new ≡ with_line out.old (rejected_words bad)) }
{
    out.word("rejected")?;
    out.word("line")?;
    out.number(u64::from(bad.line))?;
    out.word(bad.code.word())?;
    out.end_line()
}

fn rejected_line(alloc: Global, bad: BadLine) -> Result<Vec<u8>, AllocError>
    ensures { IfOk result (λ text. text.items ≡ rejected_line bad) }
{
    let mut out = Lines::new(alloc);
    write_rejected(&mut out, bad)?;
    Ok(out.into_bytes())
}

/// What is due for a certificate that is a good report.
fn accepted_due(
    alloc: Global,
    matrix: &Matrix,
    prepared: &Prepared,
    mode: &str,
    cert: &[u8],
    report: &Report,
) -> Result<Due, AllocError>
    requires prepared { IsPrepared matrix.now mode.now prepared.now }
    requires good { IsGood (problem_of prepared.now.inst) prepared.now.labels cert.now report.now }
    ensures { IfOk result (λ due. IsJudgement (system_of matrix.now) (labels_from matrix.now mode.now) cert.now due.status due.text.items) }
{
    report_stands(matrix, &prepared.inst, report);
    let text = accepted_line(alloc, report)?;
    Ok(Due {
        status: Status::Done,
        text,
    })
}

/// What is due for a certificate with a bad line.
fn rejected_due(
    alloc: Global,
    matrix: &Matrix,
    prepared: &Prepared,
    mode: &str,
    cert: &[u8],
    bad: BadLine,
) -> Result<Due, AllocError>
    requires prepared { IsPrepared matrix.now mode.now prepared.now }
    requires first { IsFirstBad (problem_of prepared.now.inst) prepared.now.labels cert.now bad }
    ensures { IfOk result (λ due. IsJudgement (system_of matrix.now) (labels_from matrix.now mode.now) cert.now due.status due.text.items) }
{
    let text = rejected_line(alloc, bad)?;
    Ok(Due {
        status: Status::Rejected,
        text,
    })
}

/// What is due for the bytes of a certificate.
pub fn judgement_on(
    alloc: Global,
    matrix: &Matrix,
    prepared: &Prepared,
    mode: &str,
    cert: &[u8],
) -> Result<Due, AllocError>
    requires prepared { IsPrepared matrix.now mode.now prepared.now }
    requires short { length cert.now ≤ 16777216 }
    ensures { IfOk result (λ due. IsJudgement (system_of matrix.now) (labels_from matrix.now mode.now) cert.now due.status due.text.items) }
{
    match good_report(alloc, &prepared.inst, &prepared.labels, cert) {
        Ok(report) => accepted_due(alloc, matrix, prepared, mode, cert, &report),
        Err(ReportFault::Bad(bad)) => rejected_due(alloc, matrix, prepared, mode, cert, bad),
        Err(ReportFault::OutOfMemory) => Err(AllocError),
    }
}
