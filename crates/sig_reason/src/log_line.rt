//! One line of a log: `pass LABEL` or `fail LABEL`, of a test that no line before it names.
//!
//! A test is looked for by its label, from the first on. That takes a step for each test, but a log that is taken names each test once at
//! most, and the first bad line ends the reading.

ghost use Rattle.std.specs.Prelude.{◌≡◌, ◌<◌, ◌≤◌, length, nat_eq, IfSome, IfOk};
ghost use Rattle.std.specs.List.{list_any, list_all};
ghost use Rattle.sig_types.specs.LabelText.{is_label, is_label_byte};
ghost use Rattle.sig_lines.specs.Pieces.{SeenAs, words_in};
ghost use Rattle.sig_reason.specs.declared.found.Finding.{Finding};
ghost use Rattle.sig_reason.specs.Log.{outcome_in, said_in, test_named, finding_in};
ghost use Rattle.sig_reason.specs.Words.{code_word};

use crate::found::Finding;
use sig_lines::{is_text, two_words};
use sig_matrix::Matrix;

/// What a line of a log breaks.
#[derive(Clone, Copy, Debug, PartialEq, Eq)]
pub enum LogCode {
    /// The line isn't `pass` or `fail` and a label, with LF.
    L01,
    /// No test has the label.
    L02,
    /// A line before it names the test.
    L03,
}

impl LogCode {
    /// The code as it is printed.
    pub fn word(self) -> &'static str
        ensures { result.now ≡ code_word self }
    {
        match self {
            LogCode::L01 => "L01",
            LogCode::L02 => "L02",
            LogCode::L03 => "L03",
        }
    }
}

/// Whether the test failed, as the word says.
fn outcome_of(word: &[u8]) -> Option<bool>
    ensures { result ≡ outcome_in word.now }
{
    if is_text(word, b"fail") {
        Some(true)
    } else if is_text(word, b"pass") {
        Some(false)
    } else {
        None
    }
}

/// Whether the byte may stand in a label.
fn is_label_byte(byte: u8) -> bool
    ensures { result ≡ is_label_byte byte }
{
    0x21 <= byte && byte <= 0x7e
}

fn are_label_bytes(word: &[u8]) -> bool
    ensures { result ≡ list_all is_label_byte word.now }
{
    word.iter().all(|byte| is_label_byte(*byte))
}

/// One or more bytes from 0x21 to 0x7e.
fn is_label(word: &[u8]) -> bool
    ensures { result ≡ is_label word.now }
{
    word.len() != 0 && are_label_bytes(word)
}

/// Whether a test failed, and its label, as the line says.
fn said_by(line: &[u8]) -> Option<(bool, &[u8])>
    ensures { SeenAs (λ x. (x.0, x.1.now)) result (said_in (words_in line.now)) }
{
    let (first, second) = two_words(line)?;
    let failed = outcome_of(first)?;
    if is_label(second) {
        Some((failed, second))
    } else {
        None
    }
}

/// The first test with this label.
fn test_named(matrix: &Matrix, label: &[u8]) -> Option<u32>
    requires { length matrix.now.tests ≤ 256 }
    ensures test { result ≡ test_named matrix.now label.now }
    ensures there { IfSome result (λ test. test < length matrix.now.tests) }
{
    let tests = matrix.tests.as_slice();
    for test in 0..tests.len() {
        let column = &tests[test];
        if is_text(column.label.as_str().as_bytes(), label) {
            return Some(test as u32);
        }
    }
    None
}

/// Whether the test was found already.
fn is_found(found: &[Finding], test: u32) -> bool
    ensures { result ≡ list_any (λ (x : Finding). nat_eq x.test test) found.now }
{
    found.iter().any(|x| x.test == test)
}

/// What the line says after the findings of the lines before it, or the lowest code that it breaks.
pub(crate) fn finding_of(
    matrix: &Matrix,
    found: &[Finding],
    line: &[u8],
) -> Result<Finding, LogCode>
    requires { length matrix.now.tests ≤ 256 }
    ensures said { result ≡ finding_in matrix.now found.now line.now }
    ensures there { IfOk result (λ x. x.test < length matrix.now.tests) }
{
    let Some((failed, label)) = said_by(line) else {
        return Err(LogCode::L01);
    };
    let Some(test) = test_named(matrix, label) else {
        return Err(LogCode::L02);
    };
    if is_found(found, test) {
        return Err(LogCode::L03);
    }
    Ok(Finding { test, failed })
}
