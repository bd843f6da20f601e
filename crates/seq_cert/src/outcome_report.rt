//! The text of an outcome's report, written line by line without a report between.
ghost use Rattle.std.specs.Prelude.{◌≡◌, ◌≤◌, OnOk, IfOk};
ghost use Rattle.sig_lines.specs.Written.{with_lines};
ghost use Rattle.seq_theory.specs.Tree.{AsksOnly};
ghost use Rattle.seq_inst.specs.Instances.{problem_of};
ghost use Rattle.seq_inst.specs.Trees.{tree_of};
ghost use Rattle.seq_cert.specs.LabelsOf.{AreLabelsOf};
ghost use Rattle.seq_cert.specs.Text.{report_lines, report_bytes};
ghost use Rattle.seq_cert.specs.LineForms.{most_64};
ghost use Rattle.seq_cert.specs.ReportForm.{IsReport};
ghost use Rattle.seq_cert.specs.OutcomeReport.{report_from};
ghost use Rattle.seq_cert.specs.Printable.{IsPrintable, FitWords};

use crate::classes::write_classes;
use crate::groups::{write_groups, write_missed};
use crate::head::write_head;
use crate::test_lines::write_tests;
use crate::tree::write_tree;
use seq_inst::{Instance, Outcome, root};
use sig_lines::{Labels, Lines};
use std::alloc::{AllocError, Global};

/// How great the costs are, for proofs alone.
fn know_costs(outcome: &Outcome)
    ensures cost { outcome.now.cost ≤ most_64 }
    ensures low { outcome.now.low ≤ most_64 }
{
    let _cost = outcome.cost;
    let _low = outcome.low;
}

/// Writes all lines.
fn write_report(
    alloc: Global,
    out: &mut Lines,
    inst: &Instance,
    outcome: &Outcome,
    labels: &Labels,
) -> Result<(), AllocError>
    requires labels { AreLabelsOf (problem_of inst.now) labels.now }
    requires there { AsksOnly (problem_of inst.now).tests (tree_of outcome.now.strategy) }
    requires proper { outcome.now.low ≤ outcome.now.cost }
    ensures written { OnOk result (out.new ≡ with_lines out.old (report_lines (report_from (problem_of inst.now) outcome.now labels.now))) }
    ensures numbers { OnOk result (FitWords outcome.now) }
{
    know_costs(outcome);
    write_head(out, inst, outcome, labels)?;
    write_classes(alloc, out, inst, labels.states.as_slice())?;
    write_tests(out, labels.tests.as_slice())?;
    write_tree(out, inst, &outcome.strategy, &root(inst))?;
    write_groups(alloc, out, outcome.rows.as_slice())?;
    write_missed(out, outcome.missed)?;
    out.line(&["end"])?;
    Ok(())
}

/// The text of the outcome's report. The work is linear in what is written, but for a sort of the group lines.
pub fn report_of(
    alloc: Global,
    inst: &Instance,
    outcome: &Outcome,
    labels: &Labels,
) -> Result<Vec<u8>, AllocError>
    requires labels { AreLabelsOf (problem_of inst.now) labels.now }
    requires there { AsksOnly (problem_of inst.now).tests (tree_of outcome.now.strategy) }
    requires proper { outcome.now.low ≤ outcome.now.cost }
    ensures text { IfOk result (λ v. v.items ≡ report_bytes (report_from (problem_of inst.now) outcome.now labels.now)) }
    // What is written has the form, so `read_report` gives this report back.
    ensures form { OnOk result (IsPrintable outcome.now labels.now → IsReport (report_from (problem_of inst.now) outcome.now labels.now)) }
{
    let mut out = Lines::new(alloc);
    write_report(alloc, &mut out, inst, outcome, labels)?;
    Ok(out.into_bytes())
}
