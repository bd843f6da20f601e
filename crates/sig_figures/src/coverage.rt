//! Which faults are detected, and what they weigh.
//!
//! No row has a bit past the tests, so a fault is detected exactly where its row isn't zero: four words are looked at and
//! not up to 256 tests.

ghost use Rattle.std.specs.Prelude.{◌≡◌, ◌<◌, ◌↔◌, replicate, length, IfOk, IsTrue};
ghost use Rattle.sig_matrix.specs.Valid.{IsValid};
ghost use Rattle.sig_matrix.specs.Detection.{AreFourWords};
ghost use Rattle.sig_figures.specs.Coverage.{all_faults, is_seen, seen_faults, unseen_faults, weight_together};

use sig_matrix::Matrix;
use sig_types::List;
use std::alloc::{AllocError, Global};

/// Whether no bit of the row is set.
fn is_zero(row: [u64; 4]) -> bool
    ensures words { AreFourWords row }
    ensures zero { IsTrue result ↔ (row ≡ replicate 4 0) }
{
    row == [0; 4]
}

/// Whether some test detects the fault.
fn is_seen(matrix: &Matrix, fault: usize) -> bool
    requires valid { IsValid matrix.now }
    requires fault { fault < length matrix.now.faults }
    ensures { result ≡ is_seen matrix.now fault }
{
    !is_zero(matrix.faults.as_slice()[fault].row)
}

/// What all faults weigh together.
pub fn fault_weight(matrix: &Matrix) -> u64
    requires { IsValid matrix.now }
    ensures { result ≡ weight_together matrix.now (all_faults matrix.now) }
{
    let faults = matrix.faults.as_slice();
    let mut sum = 0;
    for fault in 0..faults.len() {
        sum += u64::from(faults[fault].weight);
    }
    sum
}

/// What the faults weigh together that some test detects.
pub fn detected_weight(matrix: &Matrix) -> u64
    requires { IsValid matrix.now }
    ensures { result ≡ weight_together matrix.now (seen_faults matrix.now) }
{
    let faults = matrix.faults.as_slice();
    let mut sum = 0;
    for fault in 0..faults.len() {
        if is_seen(matrix, fault) {
            sum += u64::from(faults[fault].weight);
        }
    }
    sum
}

/// The faults that no test detects.
pub fn undetected_faults(alloc: Global, matrix: &Matrix) -> Result<List<u32>, AllocError>
    requires { IsValid matrix.now }
    ensures { IfOk result (λ faults. faults ≡ unseen_faults matrix.now) }
{
    let mut faults = List::new(alloc);
    for fault in 0..matrix.faults.len() {
        if !is_seen(matrix, fault) {
            faults.push(fault as u32)?;
        }
    }
    Ok(faults)
}
