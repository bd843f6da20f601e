//! The text that says what each fault is called, written line by line.

ghost use Rattle.std.specs.Prelude.{◌≡◌, ◌<◌, map, length, IfOk, OnOk};
ghost use Rattle.seq_theory.specs.Problem.{count_up};
ghost use Rattle.sig_lines.specs.Written.{with_line, with_lines};
ghost use Rattle.sig_reason.specs.ReasonText.{label_words, reason_lines, reason_bytes};

use crate::found::Label;
use sig_lines::Lines;
use sig_matrix::Matrix;
use std::alloc::{AllocError, Global};

/// Writes the line of a fault.
fn write_label(
    out: &mut Lines,
    matrix: &Matrix,
    labels: &[Label],
    fault: usize,
) -> Result<(), AllocError>
    requires fault { fault < length matrix.now.faults }
    requires labels { length labels.now ≡ length matrix.now.faults }
    ensures { OnOk result (out.new ≡ with_line out.old (label_words matrix.now labels.now fault)) }
{
    let found = &matrix.faults.as_slice()[fault];
    out.word(labels[fault].word())?;
    out.word(found.label.as_str())?;
    out.end_line()
}

/// Writes the lines of all faults.
fn write_labels(out: &mut Lines, matrix: &Matrix, labels: &[Label]) -> Result<(), AllocError>
    requires { length labels.now ≡ length matrix.now.faults }
    ensures { OnOk result (out.new ≡ with_lines out.old (map (label_words matrix.now labels.now) (count_up 0 (length matrix.now.faults)))) }
{
    for fault in 0..matrix.faults.len() {
        write_label(out, matrix, labels, fault)?;
    }
    Ok(())
}

/// Writes all lines.
fn write_reason(
    out: &mut Lines,
    matrix: &Matrix,
    labels: &[Label],
    mode: &str,
) -> Result<(), AllocError>
    requires { length labels.now ≡ length matrix.now.faults }
    ensures { OnOk result (out.new ≡ with_lines out.old (reason_lines matrix.now labels.now mode.now)) }
{
    out.line(&["teams", "reason", "1"])?;
    out.line(&["mode", mode])?;
    out.number_line("faults", matrix.faults.len() as u64)?;
    write_labels(out, matrix, labels)?;
    out.line(&["end"])
}

/// The text that says what each fault is called. The mode is a name, or `-` where all tests are taken. The work is linear in what is written.
pub fn reason_text(
    alloc: Global,
    matrix: &Matrix,
    labels: &[Label],
    mode: &str,
) -> Result<Vec<u8>, AllocError>
    requires { length labels.now ≡ length matrix.now.faults }
    ensures { IfOk result (λ text. text.items ≡ reason_bytes matrix.now labels.now mode.now) }
{
    let mut out = Lines::new(alloc);
    write_reason(&mut out, matrix, labels, mode)?;
    Ok(out.into_bytes())
}
