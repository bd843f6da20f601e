//! The matrix text, written line by line.

ghost use Rattle.std.specs.Prelude.{◌≡◌, ◌∷◌, [], ◌<◌, ◌≤◌, codes, map, length, IfOk, OnOk};
ghost use Rattle.std.specs.String.{string_bytes};
ghost use Rattle.sig_lines.specs.Pieces.{test_words};
ghost use Rattle.sig_lines.specs.Written.{with_line, with_lines};
ghost use Rattle.seq_theory.specs.Problem.{count_up};
ghost use Rattle.sig_matrix.specs.Detection.{state_count};
ghost use Rattle.sig_matrix.specs.MatrixText.{column, outcome, row_word, state_words, matrix_lines, matrix_bytes};

use crate::matrix::Matrix;
use sig_lines::Lines;
use std::alloc::{AllocError, Global};

/// Writes the line of a test.
fn write_test(out: &mut Lines, matrix: &Matrix, test: u32) -> Result<(), AllocError>
    requires { test < length matrix.now.tests }
    ensures { OnOk result (out.new ≡ with_line out.old (test_words test (column matrix.now test))) }
{
    let column = &matrix.tests.as_slice()[test as usize];
    out.word("test")?;
    out.number(u64::from(test))?;
    out.number(u64::from(column.cost))?;
    out.word(column.label.as_str())?;
    out.end_line()
}

/// Writes the lines of all tests.
fn write_tests(out: &mut Lines, matrix: &Matrix) -> Result<(), AllocError>
    requires { length matrix.now.tests ≤ 256 }
    ensures { OnOk result (out.new ≡ with_lines out.old (map (λ t. test_words t (column matrix.now t)) (count_up 0 (length matrix.now.tests)))) }
{
    for test in 0..matrix.tests.len() {
        write_test(out, matrix, test as u32)?;
    }
    Ok(())
}

/// The character of a test that fails, or that passes.
fn outcome(fails: bool) -> char
    ensures { result ≡ outcome fails }
{
    if fails { '1' } else { '0' }
}

/// The row of a state, a character for each test; `-` without tests.
fn row_of(alloc: Global, matrix: &Matrix, state: u32) -> Result<String, AllocError>
    requires state { state < state_count matrix.now }
    requires tests { length matrix.now.tests ≤ 256 }
    ensures { IfOk result (λ row. string_bytes row ≡ row_word matrix.now state) }
{
    if matrix.tests.len() == 0 {
        return String::from_str(alloc, "-");
    }
    let mut row = String::new(alloc);
    for test in 0..matrix.tests.len() {
        row.push(outcome(matrix.fails(state, test as u32)))?;
    }
    Ok(row)
}

/// Writes the line of a state.
fn write_state(
    alloc: Global,
    out: &mut Lines,
    matrix: &Matrix,
    state: u32,
) -> Result<(), AllocError>
    requires state { state < state_count matrix.now }
    requires tests { length matrix.now.tests ≤ 256 }
    ensures { OnOk result (out.new ≡ with_line out.old (state_words matrix.now state)) }
{
    let row = row_of(alloc, matrix, state)?;
    out.word("state")?;
    out.number(u64::from(matrix.weight(state)))?;
    out.word(row.as_str())?;
    out.word(matrix.label(state))?;
    out.end_line()
}

/// Writes the lines of all states.
fn write_states(alloc: Global, out: &mut Lines, matrix: &Matrix) -> Result<(), AllocError>
    requires faults { length matrix.now.faults ≤ 4096 }
    requires tests { length matrix.now.tests ≤ 256 }
    ensures { OnOk result (out.new ≡ with_lines out.old (map (state_words matrix.now) (count_up 0 (state_count matrix.now)))) }
{
    for state in 0..matrix.states() {
        write_state(alloc, out, matrix, state)?;
    }
    Ok(())
}

/// Writes all lines.
fn write_matrix(
    alloc: Global,
    out: &mut Lines,
    matrix: &Matrix,
    mode: &str,
) -> Result<(), AllocError>
    requires faults { length matrix.now.faults ≤ 4096 }
    requires tests { length matrix.now.tests ≤ 256 }
    ensures { OnOk result (out.new ≡ with_lines out.old (matrix_lines matrix.now mode.now)) }
{
    out.line(&["teams", "matrix", "1"])?;
    out.line(&["mode", mode])?;
    out.number_line("tests", matrix.tests.len() as u64)?;
    write_tests(out, matrix)?;
    out.number_line("states", u64::from(matrix.states()))?;
    write_states(alloc, out, matrix)?;
    out.line(&["end"])
}

/// The matrix text. The mode is a name, or `-` where all tests are taken.
pub fn matrix_text(alloc: Global, matrix: &Matrix, mode: &str) -> Result<Vec<u8>, AllocError>
    requires faults { length matrix.now.faults ≤ 4096 }
    requires tests { length matrix.now.tests ≤ 256 }
    ensures { IfOk result (λ text. text.items ≡ matrix_bytes matrix.now mode.now) }
{
    let mut out = Lines::new(alloc);
    write_matrix(alloc, &mut out, matrix, mode)?;
    Ok(out.into_bytes())
}
