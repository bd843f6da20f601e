//! The check of a report. The definition lists all looks at its lines in order; the code makes them in
//! that order and stops at the first bad one, except that the tree lines are walked first, since the cost
//! is looked at only where they draw a strategy.
ghost use Rattle.std.specs.Prelude.{◌≡◌, ◌^◌, ◌<◌, ◌-◌, IfOk, length};
ghost use Rattle.seq_inst.specs.Instances.{problem_of};
ghost use Rattle.seq_cert.specs.LabelsOf.{AreLabelsOf};
ghost use Rattle.seq_cert.specs.Text.{report_lines};
ghost use Rattle.seq_check.specs.Looks.{first_bad};
ghost use Rattle.seq_theory.specs.Problem.{all_classes};
ghost use Rattle.seq_theory.specs.Tree.{tree_cost};
ghost use Rattle.seq_check.specs.TreesIn.{tree_in};
ghost use Rattle.seq_check.specs.Walked.{IsWalked};
ghost use Rattle.seq_check.specs.Lines.{looks, looks_from_classes, looks_from_tree, looks_from_groups, looks_at_tree, tests_at, groups_at, missed_at};
ghost use Rattle.seq_check.specs.Shown.{Judges, Shows};

use crate::groups::first_in_groups;
use crate::head::first_in_head;
use crate::listing::listing_of;
use crate::missed::first_in_missed;
use crate::model::{first_in_classes, first_in_tests};
use crate::places::{Places, places_of};
use crate::tree::{Walked, walk};
use seq_cert::{BadLine, Report, ReportFault};
use seq_huff::{Order, Scratch};
use seq_inst::{Instance, Verdict};
use seq_theory::certificate_holds;
use sig_lines::Labels;
use std::alloc::{AllocError, Global};

/// The first bad line from the groups on.
#[tactic(auto, unfolding(crate::specs::Lines::looks_from_groups))]
fn first_from_groups(
    alloc: Global,
    inst: &Instance,
    report: &Report,
    places: Places,
) -> Result<Option<BadLine>, AllocError>
    requires fits { missed_at report.now < 2 ^ 32 }
    requires groups { places.groups ≡ groups_at report.now }
    requires missed { places.missed ≡ missed_at report.now }
    ensures { IfOk result (λ b. b ≡ first_bad (looks_from_groups (problem_of inst.now) report.now)) }
{
    let mut scratch = Scratch::new();
    let lines = report.groups.as_slice();
    let order = Order::of(alloc, inst)?;
    let listing = listing_of(alloc, &mut scratch, &order, inst, lines)?;
    let bad = first_in_groups(
        &mut scratch,
        &order,
        inst,
        &listing,
        report.low,
        lines,
        places.groups,
    );
    if bad.is_some() {
        return Ok(bad);
    }
    Ok(first_in_missed(inst, &listing.lows, report.missed, places.missed))
}

/// The first bad line from the tree on, which was walked.
#[tactic(auto, unfolding(crate::specs::Lines::looks_from_tree), using(crate::proofs::LookLaws::first_here, crate::proofs::LookLaws::first_later))]
fn first_from_tree(
    alloc: Global,
    inst: &Instance,
    report: &Report,
    places: Places,
    walked: Walked,
) -> Result<Option<BadLine>, AllocError>
    requires walked { IsWalked (first_bad (looks_at_tree (problem_of inst.now) report.now)) (tree_cost (problem_of inst.now) (tree_in report.now.tree) (all_classes (problem_of inst.now))) walked }
    requires fits { missed_at report.now < 2 ^ 32 }
    requires groups { places.groups ≡ groups_at report.now }
    requires missed { places.missed ≡ missed_at report.now }
    ensures { IfOk result (λ b. b ≡ first_bad (looks_from_tree (problem_of inst.now) report.now)) }
{
    match walked {
        Walked::Bad(bad) => Ok(Some(bad)),
        Walked::Costs(_) => first_from_groups(alloc, inst, report, places),
    }
}

/// The first bad line from the classes on.
#[tactic(auto, unfolding(crate::specs::Lines::looks_from_classes))]
fn first_from_classes(
    alloc: Global,
    inst: &Instance,
    labels: &Labels,
    report: &Report,
    places: Places,
    walked: Walked,
) -> Result<Option<BadLine>, AllocError>
    requires labels { AreLabelsOf (problem_of inst.now) labels.now }
    requires walked { IsWalked (first_bad (looks_at_tree (problem_of inst.now) report.now)) (tree_cost (problem_of inst.now) (tree_in report.now.tree) (all_classes (problem_of inst.now))) walked }
    requires fits { missed_at report.now < 2 ^ 32 }
    requires tests { places.tests ≡ tests_at report.now }
    requires groups { places.groups ≡ groups_at report.now }
    requires missed { places.missed ≡ missed_at report.now }
    ensures { IfOk result (λ b. b ≡ first_bad (looks_from_classes (problem_of inst.now) labels.now report.now)) }
{
    let states = labels.states.as_slice();
    let class_lines = report.class_lines.as_slice();
    let classes = first_in_classes(alloc, inst, states, class_lines)?;
    if classes.is_some() {
        return Ok(classes);
    }
    let test_lines = report.test_lines.as_slice();
    let tests = first_in_tests(labels.tests.as_slice(), test_lines, places.tests);
    if tests.is_some() {
        return Ok(tests);
    }
    let rest = first_from_tree(alloc, inst, report, places, walked)?;
    Ok(rest)
}

/// The first bad line.
#[tactic(auto, unfolding(crate::specs::Lines::looks))]
fn first_bad_line(
    alloc: Global,
    inst: &Instance,
    labels: &Labels,
    report: &Report,
) -> Result<Option<BadLine>, AllocError>
    requires labels { AreLabelsOf (problem_of inst.now) labels.now }
    requires fits { missed_at report.now < 2 ^ 32 }
    ensures { IfOk result (λ b. b ≡ first_bad (looks (problem_of inst.now) labels.now report.now)) }
{
    let places = places_of(report);
    let walked = walk(alloc, inst, report.tree.as_slice(), places.tree)?;
    let head = first_in_head(inst, labels, report, walked);
    if head.is_some() {
        return Ok(head);
    }
    let rest = first_from_classes(alloc, inst, labels, report, places, walked)?;
    Ok(rest)
}

/// The report's verdict, where no line is bad; else the first bad line with the lowest code that it
/// breaks. Whoever made the report is not trusted.
///
/// The work is at most that of putting the weights and the costs in order once, of two bounds for each group
/// line, and for each splitting test of its group of four look-ups, an estimate, and a bound of each part that
/// is not listed. Where the estimate is enough, a test takes no low and no bound.
pub fn check(
    alloc: Global,
    inst: &Instance,
    labels: &Labels,
    report: &Report,
) -> Result<Verdict, ReportFault>
    requires labels { AreLabelsOf (problem_of inst.now) labels.now }
    requires short { length (report_lines report.now) < 2 ^ 32 - 1 }
    // Bad exactly where a line is bad, with the first such line.
    ensures judges { Judges report.now.verdict (first_bad (looks (problem_of inst.now) labels.now report.now)) result }
    // An accepted report draws a strategy that tells all classes apart and costs what it says; the least
    // cost lies between its low and its cost, and is the cost where it says optimal.
    ensures shows { IfOk result (λ v. Shows (problem_of inst.now) report.now) }
{
    certificate_holds();
    let bad = first_bad_line(alloc, inst, labels, report)?;
    match bad {
        Some(bad) => Err(ReportFault::Bad(bad)),
        None => Ok(report.verdict),
    }
}
