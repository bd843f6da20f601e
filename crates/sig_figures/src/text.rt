//! The figures text, written line by line.

ghost use Rattle.std.specs.Prelude.{◌≡◌, ◌<◌, map, length, All, IfOk, OnOk};
ghost use Rattle.sig_lines.specs.Written.{with_line, with_lines};
ghost use Rattle.sig_figures.specs.Figures.{AreNamed, IsPairOf};
ghost use Rattle.sig_figures.specs.FiguresText.{detected_words, count_lines, size_words, undetected_words, blind_words, equal_words, loop_words, figures_lines, figures_bytes};

use crate::summary::{EqualTest, Figures, SizeCount};
use sig_flat::Flat;
use sig_lines::Lines;
use sig_matrix::Matrix;
use std::alloc::{AllocError, Global};

/// Writes the weight that is detected, and that of all faults.
fn write_detected(out: &mut Lines, detected: u64, all: u64) -> Result<(), AllocError>
    ensures { OnOk result (out.new ≡ with_line out.old (detected_words detected all)) }
{
    out.word("detected")?;
    out.number(detected)?;
    out.word("of")?;
    out.number(all)?;
    out.end_line()
}

/// Writes the lines of single numbers.
fn write_counts(out: &mut Lines, figures: &Figures) -> Result<(), AllocError>
    ensures { OnOk result (out.new ≡ with_lines out.old (count_lines figures.now)) }
{
    out.number_line("faults", u64::from(figures.faults))?;
    out.number_line("tests", u64::from(figures.tests))?;
    write_detected(out, figures.detected_weight, figures.fault_weight)?;
    out.number_line("classes", u64::from(figures.classes))
}

fn write_size(out: &mut Lines, size: SizeCount) -> Result<(), AllocError>
    ensures { OnOk result (out.new ≡ with_line out.old (size_words size)) }
{
    out.word("size")?;
    out.number(u64::from(size.states))?;
    out.number(u64::from(size.faults))?;
    out.end_line()
}

/// Writes the sizes of ambiguity groups.
fn write_sizes(out: &mut Lines, sizes: &[SizeCount]) -> Result<(), AllocError>
    ensures { OnOk result (out.new ≡ with_lines out.old (map size_words sizes.now)) }
{
    for size in sizes {
        write_size(out, *size)?;
    }
    Ok(())
}

fn write_fault(out: &mut Lines, matrix: &Matrix, fault: u32) -> Result<(), AllocError>
    requires { fault < length matrix.now.faults }
    ensures { OnOk result (out.new ≡ with_line out.old (undetected_words matrix.now fault)) }
{
    let found = &matrix.faults.as_slice()[fault as usize];
    out.line(&["undetected", found.label.as_str()])
}

/// Writes the faults that no test detects.
fn write_undetected(out: &mut Lines, matrix: &Matrix, faults: &[u32]) -> Result<(), AllocError>
    requires { All (λ fault. fault < length matrix.now.faults) faults.now }
    ensures { OnOk result (out.new ≡ with_lines out.old (map (undetected_words matrix.now) faults.now)) }
{
    for fault in faults {
        write_fault(out, matrix, *fault)?;
    }
    Ok(())
}

fn write_test(out: &mut Lines, matrix: &Matrix, test: u32) -> Result<(), AllocError>
    requires { test < length matrix.now.tests }
    ensures { OnOk result (out.new ≡ with_line out.old (blind_words matrix.now test)) }
{
    let found = &matrix.tests.as_slice()[test as usize];
    out.line(&["blind", found.label.as_str()])
}

/// Writes the tests that detect no fault.
fn write_blind(out: &mut Lines, matrix: &Matrix, tests: &[u32]) -> Result<(), AllocError>
    requires { All (λ test. test < length matrix.now.tests) tests.now }
    ensures { OnOk result (out.new ≡ with_lines out.old (map (blind_words matrix.now) tests.now)) }
{
    for test in tests {
        write_test(out, matrix, *test)?;
    }
    Ok(())
}

fn write_pair(out: &mut Lines, matrix: &Matrix, pair: EqualTest) -> Result<(), AllocError>
    requires { IsPairOf matrix.now pair }
    ensures { OnOk result (out.new ≡ with_line out.old (equal_words matrix.now pair)) }
{
    let tests = matrix.tests.as_slice();
    let test = tests[pair.test as usize].label.as_str();
    let first = tests[pair.first as usize].label.as_str();
    out.line(&["equal", test, first])
}

/// Writes the tests that detect the same faults as an earlier one.
fn write_equal(out: &mut Lines, matrix: &Matrix, pairs: &[EqualTest]) -> Result<(), AllocError>
    requires { All (IsPairOf matrix.now) pairs.now }
    ensures { OnOk result (out.new ≡ with_lines out.old (map (equal_words matrix.now) pairs.now)) }
{
    for pair in pairs {
        write_pair(out, matrix, *pair)?;
    }
    Ok(())
}

fn write_node(out: &mut Lines, flat: &Flat, node: u32) -> Result<(), AllocError>
    requires { node < length flat.now.nodes }
    ensures { OnOk result (out.new ≡ with_line out.old (loop_words flat.now node)) }
{
    let found = &flat.nodes.as_slice()[node as usize];
    out.line(&["loop", found.path.as_str()])
}

/// Writes the nodes on a loop.
fn write_looped(out: &mut Lines, flat: &Flat, nodes: &[u32]) -> Result<(), AllocError>
    requires { All (λ node. node < length flat.now.nodes) nodes.now }
    ensures { OnOk result (out.new ≡ with_lines out.old (map (loop_words flat.now) nodes.now)) }
{
    for node in nodes {
        write_node(out, flat, *node)?;
    }
    Ok(())
}

/// Writes all lines.
fn write_figures(
    out: &mut Lines,
    flat: &Flat,
    matrix: &Matrix,
    figures: &Figures,
    mode: &str,
) -> Result<(), AllocError>
    requires { AreNamed flat.now matrix.now figures.now }
    ensures { OnOk result (out.new ≡ with_lines out.old (figures_lines flat.now matrix.now figures.now mode.now)) }
{
    out.line(&["teams", "figures", "1"])?;
    out.line(&["mode", mode])?;
    write_counts(out, figures)?;
    write_sizes(out, figures.sizes.as_slice())?;
    write_undetected(out, matrix, figures.undetected.as_slice())?;
    write_blind(out, matrix, figures.blind.as_slice())?;
    write_equal(out, matrix, figures.equal.as_slice())?;
    write_looped(out, flat, figures.looped.as_slice())?;
    out.line(&["end"])?;
    Ok(())
}

/// The figures text. The mode is a name, or `-` where all tests are taken. The work is linear in what is written.
pub fn figures_text(
    alloc: Global,
    flat: &Flat,
    matrix: &Matrix,
    figures: &Figures,
    mode: &str,
) -> Result<Vec<u8>, AllocError>
    requires { AreNamed flat.now matrix.now figures.now }
    ensures { IfOk result (λ text. text.items ≡ figures_bytes flat.now matrix.now figures.now mode.now) }
{
    let mut out = Lines::new(alloc);
    write_figures(&mut out, flat, matrix, figures, mode)?;
    Ok(out.into_bytes())
}
