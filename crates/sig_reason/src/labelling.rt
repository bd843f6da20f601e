//! What each fault is called, for a matrix and what was found.
//!
//! Failed tests without a cause come first: where there is one, no set of faults is consistent. Else the two rules give each
//! fault its label. The work is one pass over the faults, and a pass for each failed test, of four words a fault.

ghost use Rattle.std.specs.Prelude.{◌≡◌, ◌<◌, ◌≤◌, length, All, IfOk, IfErr, OnOk};
ghost use Rattle.sig_reason.specs.declared.found.Finding.{Finding};
ghost use Rattle.sig_reason.specs.FaultSets.{IsPossible};
ghost use Rattle.sig_reason.specs.Labelling.{case_of, AreCalled, IsRefusedBy};

use crate::causes::{standings_of, tests_that};
use crate::found::{Finding, Labelled, ReasonFault};
use crate::rows::{first_of, without};
use crate::rules::{labels_by_rules, tally_of, withins_of};
use sig_matrix::Matrix;
use std::alloc::Global;

/// What each fault is called, by fault. A test that is found both passed and failed is a conflict. The work grows with the faults
/// times the failed tests, in steps of four words.
pub fn label_of(
    alloc: Global,
    matrix: &Matrix,
    findings: &[Finding],
) -> Result<Labelled, ReasonFault>
    requires tests { length matrix.now.tests ≤ 256 }
    requires there { All (λ (x : Finding). x.test < length matrix.now.tests) findings.now }
    // What each fault is called is said over all sets of faults, of which some is consistent.
    ensures labels { IfOk result (λ labelled. AreCalled (case_of matrix.now findings.now) labelled.labels.items) }
    ensures possible { OnOk result (IsPossible (case_of matrix.now findings.now)) }
    // A conflict names its test, and no set is consistent.
    ensures conflict { IfErr result (IsRefusedBy (case_of matrix.now findings.now)) }
{
    let passed = tests_that(findings, false);
    let failed = tests_that(findings, true);
    let standings = standings_of(alloc, matrix, passed, failed)?;
    let tally = tally_of(standings.as_slice());
    if let Some(test) = first_of(without(failed, tally.some)) {
        return Err(ReasonFault::Conflict { test });
    }
    let withins = withins_of(alloc, standings.as_slice(), failed)?;
    let labels = labels_by_rules(
        alloc,
        standings.as_slice(),
        tally.several,
        withins.as_slice(),
    )?;
    Ok(Labelled { labels })
}
