//! The matrix of a flat model, filled in mode by mode.
//!
//! One `ReachTo` answers for the tests of its mode, and is dropped before the next mode's is made, so that one at most
//! stands in memory. So each test gets two passes over the links of its mode, and tests of one mode at one node share
//! them. A mode without a test that is taken costs one look at the tests. Beside the passes the work is one question for
//! each fault and test.

ghost use Rattle.std.specs.Prelude.{◌≡◌, ◌≢◌, ℕ, ◌+◌, ◌<◌, ◌≤◌, true, length, map, replicate, All, IfOk, IfSome};
ghost use Rattle.std.specs.Bool.{OnFalse};
ghost use Rattle.std.specs.List.{AllZip};
ghost use Rattle.sig_flat.specs.declared.flat.FlatTest.{FlatTest};
ghost use Rattle.sig_reach.specs.Marks.{is_marked};
ghost use Rattle.sig_matrix.specs.declared.matrix.FaultRow.{FaultRow};
ghost use Rattle.sig_matrix.specs.Detection.{AreFourWords, IsMatrixOf, IsRowOf, IsLabelOf, is_taken, taken, test_at};
ghost use Rattle.sig_matrix.specs.Filling.{IsTestAdded, IsWanted, AreRows, is_before};
ghost use Rattle.sig_matrix.specs.Valid.{IsValid};

use crate::detection::is_detected;
use crate::matrix::{FaultRow, Matrix};
use crate::row::with_test;
use sig_flat::{Flat, FlatTest};
use sig_lines::TestLabel;
use sig_reach::{ReachTo, reaches_to};
use sig_types::{List, Text};
use std::alloc::{AllocError, Global};

/// Whether the test is taken.
fn is_taken(test: &FlatTest, mode: Option<u32>) -> bool
    ensures { result ≡ is_taken mode test.now }
{
    match mode {
        None => true,
        Some(mode) => test.mode == mode,
    }
}

/// The numbers of the tests that are taken, in order.
fn taken_numbers(alloc: Global, flat: &Flat, mode: Option<u32>) -> Result<Vec<u32>, AllocError>
    ensures there { IfOk result (λ numbers. All (λ n. n < length flat.now.tests) numbers.items) }
    ensures tests { IfOk result (λ numbers. map (test_at flat.now.tests) numbers.items ≡ taken mode flat.now.tests) }
{
    let tests = flat.tests.as_slice();
    let mut numbers = Vec::new(alloc);
    for number in 0..tests.len() {
        if is_taken(&tests[number], mode) {
            numbers.push(number as u32)?;
        }
    }
    Ok(numbers)
}

/// The costs and labels of the tests with these numbers.
fn labels_of(alloc: Global, flat: &Flat, numbers: &[u32]) -> Result<List<TestLabel>, AllocError>
    requires { All (λ n. n < length flat.now.tests) numbers.now }
    ensures { IfOk result (λ labels. AllZip IsLabelOf (map (test_at flat.now.tests) numbers.now) labels) }
{
    let tests = flat.tests.as_slice();
    let mut labels = List::new(alloc);
    for number in numbers {
        let test = &tests[*number as usize];
        let label = Text::of(alloc, test.label.as_str())?;
        labels.push(TestLabel {
            cost: test.cost,
            label,
        })?;
    }
    Ok(labels)
}

/// Sets the test's bit in the row of each fault that it detects.
fn add_test(reach: &ReachTo, flat: &Flat, test: &FlatTest, column: u32, rows: &mut [[u64; 4]])
    requires reach { reach.now.flat ≡ flat.now }
    requires mode { reach.now.mode ≡ test.now.mode }
    requires point { is_marked reach.now.wanted test.now.node ≡ true }
    requires column { column < 256 }
    requires rows { length rows.old ≡ length flat.now.faults }
    ensures { IsTestAdded flat.now test.now column rows.old rows.new }
{
    let faults = flat.faults.as_slice();
    for fault in 0..faults.len() {
        if is_detected(reach, &faults[fault], test) {
            rows[fault] = with_test(rows[fault], column);
        }
    }
}

/// Sets the bits of the tests of one mode.
fn add_mode(reach: &ReachTo, flat: &Flat, numbers: &[u32], mode: u32, rows: &mut [[u64; 4]])
    requires reach { reach.now.flat ≡ flat.now }
    requires mode { reach.now.mode ≡ mode }
    requires there { All (λ n. n < length flat.now.tests) numbers.now }
    requires wanted { All (IsWanted flat.now mode reach.now.wanted) numbers.now }
    requires few { length numbers.now ≤ 256 }
    requires rows { AreRows flat.now (map (test_at flat.now.tests) numbers.now) (is_before (map (test_at flat.now.tests) numbers.now) mode) rows.old }
    ensures { AreRows flat.now (map (test_at flat.now.tests) numbers.now) (is_before (map (test_at flat.now.tests) numbers.now) (mode + 1)) rows.new }
{
    let tests = flat.tests.as_slice();
    for column in 0..numbers.len() {
        let test = &tests[numbers[column] as usize];
        if test.mode == mode {
            add_test(reach, flat, test, column as u32, rows);
        }
    }
}

/// Whether one of the tests with these numbers is made in the mode.
fn is_used(flat: &Flat, numbers: &[u32], mode: u32) -> bool
    requires { All (λ n. n < length flat.now.tests) numbers.now }
    ensures { OnFalse result (All (λ n. (test_at flat.now.tests n).mode ≢ mode) numbers.now) }
{
    let tests = flat.tests.as_slice();
    for number in numbers {
        if tests[*number as usize].mode == mode {
            return true;
        }
    }
    false
}

/// Which nodes have one of the tests with these numbers in the mode.
fn wanted_nodes(
    alloc: Global,
    flat: &Flat,
    numbers: &[u32],
    mode: u32,
) -> Result<Vec<bool>, AllocError>
    requires there { All (λ n. n < length flat.now.tests) numbers.now }
    ensures long { IfOk result (λ wanted. length wanted.items ≡ length flat.now.nodes) }
    ensures wanted { IfOk result (λ wanted. All (IsWanted flat.now mode wanted.items) numbers.now) }
{
    let tests = flat.tests.as_slice();
    let mut wanted = vec![in alloc; false; flat.nodes.len()]?;
    for number in numbers {
        let test = &tests[*number as usize];
        if test.mode == mode {
            wanted[test.node as usize] = true;
        }
    }
    Ok(wanted)
}

/// So many rows without a bit.
fn empty_rows(alloc: Global, count: usize) -> Result<Vec<[u64; 4]>, AllocError>
    ensures { IfOk result (λ rows. rows.items ≡ replicate count (replicate {A = ℕ} 4 0)) }
{
    let rows = vec![in alloc; [0u64; 4]; count]?;
    Ok(rows)
}

/// For each fault its row over the tests with these numbers.
fn rows_of(alloc: Global, flat: &Flat, numbers: &[u32]) -> Result<Vec<[u64; 4]>, AllocError>
    requires there { All (λ n. n < length flat.now.tests) numbers.now }
    requires few { length numbers.now ≤ 256 }
    ensures { IfOk result (λ rows. AreRows flat.now (map (test_at flat.now.tests) numbers.now) (λ t. true) rows.items) }
{
    let mut rows = empty_rows(alloc, flat.faults.len())?;
    for mode in 0..flat.modes.len() as u32 {
        if is_used(flat, numbers, mode) {
            let wanted = wanted_nodes(alloc, flat, numbers, mode)?;
            let reach = reaches_to(alloc, flat, mode, wanted)?;
            add_mode(&reach, flat, numbers, mode, rows.as_mut_slice());
        }
    }
    Ok(rows)
}

/// The row itself, which is four words as each row of a program is.
fn four_words(row: [u64; 4]) -> [u64; 4]
    ensures same { result ≡ row }
    ensures words { AreFourWords row }
{
    row
}

/// The faults with these rows.
fn faults_with(alloc: Global, flat: &Flat, rows: &[[u64; 4]]) -> Result<List<FaultRow>, AllocError>
    requires { length rows.now ≡ length flat.now.faults }
    ensures faults { IfOk result (λ faults. AllZip IsRowOf flat.now.faults faults) }
    ensures rows { IfOk result (λ faults. map (λ (f : FaultRow). f.row) faults ≡ rows.now) }
    ensures words { IfOk result (All (λ (f : FaultRow). AreFourWords f.row)) }
{
    let faults = flat.faults.as_slice();
    let mut list = List::new(alloc);
    for at in 0..faults.len() {
        let fault = &faults[at];
        let label = Text::of(alloc, fault.label.as_str())?;
        list.push(FaultRow {
            weight: fault.weight,
            label,
            row: four_words(rows[at]),
        })?;
    }
    Ok(list)
}

/// The matrix of a flat model: of all its tests, each in its own mode, or of the tests of one mode alone, renumbered in
/// order. It costs two passes for each test, a look at each link for each mode in use, and a question for each fault and
/// test.
pub fn matrix_of(alloc: Global, flat: &Flat, mode: Option<u32>) -> Result<Matrix, AllocError>
    requires mode { IfSome mode (λ m. m < length flat.now.modes) }
    ensures matrix { IfOk result (λ matrix. IsMatrixOf flat.now mode matrix) }
    ensures valid { IfOk result IsValid }
{
    let numbers = taken_numbers(alloc, flat, mode)?;
    let rows = rows_of(alloc, flat, numbers.as_slice())?;
    let tests = labels_of(alloc, flat, numbers.as_slice())?;
    let faults = faults_with(alloc, flat, rows.as_slice())?;
    Ok(Matrix {
        good: flat.good,
        faults,
        tests,
    })
}
