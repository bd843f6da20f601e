//! What the findings say of each fault alone: whether a passed test clears it, and if not, of which failed tests it may be the cause.
//!
//! The tests that passed and those that failed are two rows. A fault is looked at once, in whole words: its row has a test in
//! common with those that passed, or it is clear and its causes are what it has in common with those that failed.

ghost use Rattle.std.specs.Prelude.{◌≡◌, ◌≤◌, ◌<◌, All, IfOk};
ghost use Rattle.sig_reason.specs.declared.found.Finding.{Finding};
ghost use Rattle.sig_reason.specs.Causes.{TellsTests, AddsFinding, IsStanding, AreStandings};

use crate::found::Finding;
use crate::rows::{common, is_empty};
use sig_matrix::{Matrix, with_test};
use std::alloc::{AllocError, Global};

/// What the findings say of one fault alone.
#[derive(Clone, Copy, Debug)]
pub(crate) struct Standing {
    /// No passed test detects the fault.
    pub clear: bool,
    /// The failed tests that detect the fault, if it is clear.
    pub causes: [u64; 4],
}

/// The row, with the finding's test if it failed, or passed, as is asked.
fn with_finding(row: [u64; 4], finding: Finding, failed: bool) -> [u64; 4]
    requires { finding.test < 256 }
    ensures { AddsFinding row finding failed result }
{
    if finding.failed == failed {
        with_test(row, finding.test)
    } else {
        row
    }
}

/// The tests that failed, or passed, as is asked.
pub(crate) fn tests_that(findings: &[Finding], failed: bool) -> [u64; 4]
    requires { All (λ (x : Finding). x.test < 256) findings.now }
    ensures { TellsTests findings.now failed result }
{
    let mut row = [0; 4];
    for finding in findings {
        let next = with_finding(row, *finding, failed);
        row = next;
    }
    row
}

/// What the tests that passed and failed say of the fault with this row.
fn standing_of(row: [u64; 4], passed: [u64; 4], failed: [u64; 4]) -> Standing
    ensures { IsStanding row passed failed result }
{
    if is_empty(common(row, passed)) {
        Standing {
            clear: true,
            causes: common(row, failed),
        }
    } else {
        Standing {
            clear: false,
            causes: [0; 4],
        }
    }
}

/// What they say of each fault.
pub(crate) fn standings_of(
    alloc: Global,
    matrix: &Matrix,
    passed: [u64; 4],
    failed: [u64; 4],
) -> Result<Vec<Standing>, AllocError>
    ensures { IfOk result (λ standings. AreStandings matrix.now passed failed standings.items) }
{
    let faults = matrix.faults.as_slice();
    let mut standings = Vec::new(alloc);
    for fault in 0..faults.len() {
        standings.push(standing_of(faults[fault].row, passed, failed))?;
    }
    Ok(standings)
}
