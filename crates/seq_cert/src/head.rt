//! The head of a report: its title and mode, how much there is of each kind of line, and what the
//! search found.
ghost use Rattle.std.specs.Prelude.{◌≡◌, ◌-◌, ◌≤◌, ◌∷◌, [], codes, length, map, OnOk};
ghost use Rattle.sig_lines.specs.Pieces.{number_words};
ghost use Rattle.sig_lines.specs.Written.{with_lines};
ghost use Rattle.seq_theory.specs.Problem.{all_classes, weight_of as weight_in};
ghost use Rattle.seq_inst.specs.Instances.{problem_of};
ghost use Rattle.seq_cert.specs.Text.{result_words, head_lines};
ghost use Rattle.seq_cert.specs.Order.{in_order};
ghost use Rattle.seq_cert.specs.OutcomeReport.{report_from, row_line};

use seq_inst::{Instance, Outcome, root, weight_of};
use sig_lines::{Labels, Lines};
use std::alloc::AllocError;

/// The sum of all weights.
fn whole_weight(inst: &Instance) -> u64
    ensures { result ≡ weight_in (problem_of inst.now) (all_classes (problem_of inst.now)) }
{
    weight_of(inst, &root(inst))
}

/// Writes how many states, classes and tests there are, and the sum of all weights.
fn write_counts(out: &mut Lines, inst: &Instance, labels: &Labels) -> Result<(), AllocError>
    ensures { OnOk result (out.new ≡ with_lines out.old (number_words (codes "states") (length labels.now.states) ∷ number_words (codes "classes") (length inst.now.weights.items) ∷ number_words (codes "tests") (length inst.now.costs.items) ∷ number_words (codes "weight") (weight_in (problem_of inst.now) (all_classes (problem_of inst.now))) ∷ [])) }
{
    out.number_line("states", labels.states.len() as u64)?;
    out.number_line("classes", inst.weights.len() as u64)?;
    out.number_line("tests", inst.costs.len() as u64)?;
    out.number_line("weight", whole_weight(inst))
}

/// Writes the verdict, what the strategy costs, the lower bound and the gap between; how many groups could be
/// entered, and how many were.
#[tactic(auto, using(crate::proofs::OrderLaws::groups_counted))]
fn write_result(out: &mut Lines, outcome: &Outcome) -> Result<(), AllocError>
    requires { outcome.now.low ≤ outcome.now.cost }
    ensures { OnOk result (out.new ≡ with_lines out.old (result_words outcome.now.verdict ∷ number_words (codes "cost") outcome.now.cost ∷ number_words (codes "low") outcome.now.low ∷ number_words (codes "gap") (outcome.now.cost - outcome.now.low) ∷ number_words (codes "limit") outcome.now.limit ∷ number_words (codes "groups") (length (in_order (map row_line outcome.now.rows.items))) ∷ [])) }
{
    out.line(&["result", outcome.verdict.word()])?;
    out.number_line("cost", outcome.cost)?;
    out.number_line("low", outcome.low)?;
    out.number_line("gap", outcome.cost - outcome.low)?;
    out.number_line("limit", u64::from(outcome.limit))?;
    out.number_line("groups", outcome.rows.len() as u64)
}

/// Writes the first twelve lines.
pub(crate) fn write_head(
    out: &mut Lines,
    inst: &Instance,
    outcome: &Outcome,
    labels: &Labels,
) -> Result<(), AllocError>
    requires { outcome.now.low ≤ outcome.now.cost }
    ensures { OnOk result (out.new ≡ with_lines out.old (head_lines (report_from (problem_of inst.now) outcome.now labels.now))) }
{
    out.line(&["teams", "report", "1"])?;
    out.line(&["mode", labels.mode.as_str()])?;
    write_counts(out, inst, labels)?;
    write_result(out, outcome)
}
