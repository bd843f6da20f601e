//! What the columns of the matrix say of its tests: which tests detect nothing, and which detect the same faults.
//!
//! A column isn't taken out of the rows. One pass over the rows gathers, for one test and all others at once, in which
//! tests some row differs from it: where the row has the test's bit, the bits that it lacks, and else those that it has.
//! A test whose bit stays clear has the same column. The gathered bits of all rows tell the tests that detect a fault.

ghost use Rattle.std.specs.Prelude.{◌≡◌, ◌≤◌, ◌<◌, ℕ, not, find, length, IfOk};
ghost use Rattle.seq_theory.specs.Problem.{count_up};
ghost use Rattle.sig_matrix.specs.Detection.{in_row};
ghost use Rattle.sig_matrix.specs.Valid.{IsValid};
ghost use Rattle.sig_figures.specs.Coverage.{sees_fault, blind_tests};
ghost use Rattle.sig_figures.specs.Gathering.{AddsBits, AddsTests};
ghost use Rattle.sig_figures.specs.Columns.{same_column, earlier_equal, tests_alike};

use crate::summary::EqualTest;
use sig_matrix::{Matrix, has_test};
use sig_types::List;
use std::alloc::{AllocError, Global};

/// The word, and the bits beside in which the other isn't `alike`.
fn with_word(word: u64, other: u64, alike: bool) -> u64
    ensures { AddsBits word other alike result }
{
    if alike { word | !other } else { word | other }
}

/// The row, and the bits beside in which the other isn't `alike`.
fn with_row(row: [u64; 4], other: [u64; 4], alike: bool) -> [u64; 4]
    ensures { AddsTests row other alike result }
{
    [
        with_word(row[0], other[0], alike),
        with_word(row[1], other[1], alike),
        with_word(row[2], other[2], alike),
        with_word(row[3], other[3], alike),
    ]
}

/// The tests that detect some fault, as bits.
fn seeing(matrix: &Matrix) -> [u64; 4]
    ensures { (test : ℕ) → test < 256 → in_row result test ≡ sees_fault matrix.now test }
{
    let faults = matrix.faults.as_slice();
    let mut row = [0; 4];
    for fault in 0..faults.len() {
        let next = with_row(row, faults[fault].row, false);
        row = next;
    }
    row
}

/// The tests that don't detect the same faults as this one, as bits.
fn differing(matrix: &Matrix, test: u32) -> [u64; 4]
    requires faults { length matrix.now.faults ≤ 4096 }
    requires test { test < 256 }
    ensures { (other : ℕ) → other < 256 → in_row result other ≡ not (same_column matrix.now other test) }
{
    let faults = matrix.faults.as_slice();
    let mut row = [0; 4];
    for fault in 0..faults.len() {
        let next = with_row(row, faults[fault].row, matrix.detects(fault as u32, test));
        row = next;
    }
    row
}

/// The first test below a number whose bit is clear.
fn first_clear(row: [u64; 4], tests: u32) -> Option<u32>
    requires { tests ≤ 256 }
    ensures { result ≡ find (λ test. not (in_row row test)) (count_up 0 tests) }
{
    for test in 0..tests {
        if !has_test(row, test) {
            return Some(test);
        }
    }
    None
}

/// The first earlier test that detects the same faults.
fn first_equal(matrix: &Matrix, test: u32) -> Option<u32>
    requires faults { length matrix.now.faults ≤ 4096 }
    requires test { test < 256 }
    ensures { result ≡ earlier_equal matrix.now test }
{
    first_clear(differing(matrix, test), test)
}

/// The tests that detect no fault.
pub fn blind_tests(alloc: Global, matrix: &Matrix) -> Result<List<u32>, AllocError>
    requires { IsValid matrix.now }
    ensures { IfOk result (λ tests. tests ≡ blind_tests matrix.now) }
{
    let row = seeing(matrix);
    let mut tests = List::new(alloc);
    for test in 0..matrix.tests.len() as u32 {
        if !has_test(row, test) {
            tests.push(test)?;
        }
    }
    Ok(tests)
}

/// Each test that detects the same faults as an earlier one, with the first such test.
pub fn equal_tests(alloc: Global, matrix: &Matrix) -> Result<List<EqualTest>, AllocError>
    requires { IsValid matrix.now }
    ensures { IfOk result (λ tests. tests ≡ tests_alike matrix.now) }
{
    let mut tests = List::new(alloc);
    for test in 0..matrix.tests.len() as u32 {
        if let Some(first) = first_equal(matrix, test) {
            tests.push(EqualTest { test, first })?;
        }
    }
    Ok(tests)
}
