//! The two rules that take the place of all sets of faults.
//!
//! A fault is bad where it is the only cause of some failed test. It is in a minimal set where it is a cause of some failed
//! test, and of each failed test whose causes are all among that test's. Both are asked of whole rows: one pass over the faults tells
//! which tests have more than one cause, and one pass for each failed test tells which tests have all their causes among that one's.

ghost use Rattle.std.specs.Prelude.{◌≡◌, ◌<◌, length, true, IfOk};
ghost use Rattle.std.specs.Bool.{OnTrue, OnFalse};
ghost use Rattle.sig_matrix.specs.Detection.{in_row};
ghost use Rattle.sig_reason.specs.Rules.{AddsCauses, AddsOutside, IsTally, IsOutside, IsWithin, AreWithins, NeedsOne, SparesEach, IsRuled, AreRuled};

use crate::causes::Standing;
use crate::found::Label;
use crate::rows::{common, is_empty, joined, without};
use sig_matrix::has_test;
use std::alloc::{AllocError, Global};

/// How many causes tests have.
#[derive(Clone, Copy, Debug)]
pub(crate) struct Tally {
    /// The tests that have a cause.
    pub some: [u64; 4],
    /// The tests that have more than one.
    pub several: [u64; 4],
}

/// The tally with a further fault, a cause of these tests.
fn with_causes(tally: Tally, causes: [u64; 4]) -> Tally
    ensures { AddsCauses tally causes result }
{
    Tally {
        some: joined(tally.some, causes),
        several: joined(tally.several, common(tally.some, causes)),
    }
}

/// Which tests have a cause, and which have more than one.
pub(crate) fn tally_of(standings: &[Standing]) -> Tally
    ensures { IsTally standings.now (length standings.now) result }
{
    let mut tally = Tally {
        some: [0; 4],
        several: [0; 4],
    };
    for standing in standings {
        let next = with_causes(tally, standing.causes);
        tally = next;
    }
    tally
}

/// The row, with these tests unless the one is among them.
fn with_outside(row: [u64; 4], causes: [u64; 4], test: u32) -> [u64; 4]
    requires { test < 256 }
    ensures { AddsOutside row causes test result }
{
    if has_test(causes, test) {
        row
    } else {
        joined(row, causes)
    }
}

/// The tests with a cause that isn't one of this test.
fn tests_outside(standings: &[Standing], test: u32) -> [u64; 4]
    requires { test < 256 }
    ensures { IsOutside standings.now test (length standings.now) result }
{
    let mut row = [0; 4];
    for standing in standings {
        let next = with_outside(row, standing.causes, test);
        row = next;
    }
    row
}

/// The failed tests whose causes are all among this test's.
fn tests_within(standings: &[Standing], failed: [u64; 4], test: u32) -> [u64; 4]
    requires { test < 256 }
    ensures { IsWithin standings.now failed test result }
{
    without(failed, tests_outside(standings, test))
}

/// For each failed test the failed tests whose causes are all among its own.
pub(crate) fn withins_of(
    alloc: Global,
    standings: &[Standing],
    failed: [u64; 4],
) -> Result<Vec<[u64; 4]>, AllocError>
    ensures { IfOk result (λ rows. AreWithins standings.now failed 256 rows.items) }
{
    let mut rows = Vec::new(alloc);
    for test in 0..256 {
        if has_test(failed, test) {
            rows.push(tests_within(standings, failed, test))?;
        }
    }
    Ok(rows)
}

/// Whether one of the rows has only tests of which the fault is a cause.
fn is_needed(causes: [u64; 4], withins: &[[u64; 4]]) -> bool
    ensures needed { OnTrue result (NeedsOne causes withins.now) }
    ensures spared { OnFalse result (SparesEach causes withins.now (length withins.now)) }
{
    for within in withins {
        if is_empty(without(*within, causes)) {
            return true;
        }
    }
    false
}

/// What a fault is called by the two rules.
fn label_by_rules(standing: Standing, several: [u64; 4], withins: &[[u64; 4]]) -> Label
    ensures { IsRuled standing several withins.now result }
{
    if !standing.clear {
        Label::Good
    } else if !is_empty(without(standing.causes, several)) {
        Label::Bad
    } else if is_needed(standing.causes, withins) {
        Label::Suspect
    } else {
        Label::Unknown
    }
}

/// What each fault is called by the two rules.
pub(crate) fn labels_by_rules(
    alloc: Global,
    standings: &[Standing],
    several: [u64; 4],
    withins: &[[u64; 4]],
) -> Result<Vec<Label>, AllocError>
    ensures { IfOk result (λ labels. AreRuled standings.now several withins.now labels.items) }
{
    let mut labels = Vec::new(alloc);
    for standing in standings {
        labels.push(label_by_rules(*standing, several, withins))?;
    }
    Ok(labels)
}
