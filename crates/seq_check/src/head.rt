//! The lines of the head, in their order. The cost is looked at only where the tree lines draw a strategy.
ghost use Rattle.std.specs.Prelude.{◌≡◌, ◌++◌};
ghost use Rattle.seq_theory.specs.Problem.{Problem, all_classes};
ghost use Rattle.seq_theory.specs.Tree.{tree_cost};
ghost use Rattle.seq_inst.specs.Instances.{problem_of};
ghost use Rattle.seq_check.specs.Looks.{first_bad};
ghost use Rattle.seq_check.specs.TreesIn.{tree_in};
ghost use Rattle.seq_check.specs.Lines.{looks_at_tree, cost_looks, low_looks, gap_looks, count_looks, head_looks};
ghost use Rattle.seq_check.specs.Walked.{IsWalked};

use crate::gap::{first_at_count, first_at_gap, first_at_low};
use crate::looking::look;
use crate::model::first_in_model;
use crate::tree::Walked;
use seq_cert::{BadCode, BadLine, Report};
use seq_inst::Instance;
use sig_lines::Labels;

/// C04: whether the line of the cost is bad.
#[tactic(auto, unfolding(crate::specs::Lines::cost_looks))]
fn first_at_cost(report: &Report, walked: Walked) -> Option<BadLine>
    ensures { (p : Problem) → IsWalked (first_bad (looks_at_tree p report.now)) (tree_cost p (tree_in report.now.tree) (all_classes p)) walked → result ≡ first_bad (cost_looks p report.now) }
{
    match walked {
        Walked::Bad(_) => None,
        Walked::Costs(cost) => look(8, BadCode::C04, u128::from(report.cost) == cost),
    }
}

/// The lines from the cost on.
#[tactic(auto, using(crate::proofs::LookLaws::first_here, crate::proofs::LookLaws::first_later))]
fn first_from_cost(inst: &Instance, report: &Report, walked: Walked) -> Option<BadLine>
    requires { IsWalked (first_bad (looks_at_tree (problem_of inst.now) report.now)) (tree_cost (problem_of inst.now) (tree_in report.now.tree) (all_classes (problem_of inst.now))) walked }
    ensures { result ≡ first_bad (cost_looks (problem_of inst.now) report.now ++ (low_looks (problem_of inst.now) report.now ++ (gap_looks report.now ++ count_looks (problem_of inst.now) report.now))) }
{
    let bad = first_at_cost(report, walked);
    if bad.is_some() {
        return bad;
    }
    let bad = first_at_low(inst, report);
    if bad.is_some() {
        return bad;
    }
    let bad = first_at_gap(report);
    if bad.is_some() {
        return bad;
    }
    first_at_count(inst, report)
}

/// The first bad line of the head.
#[tactic(auto, unfolding(crate::specs::Lines::head_looks), using(crate::proofs::LookLaws::first_here, crate::proofs::LookLaws::first_later))]
pub fn first_in_head(
    inst: &Instance,
    labels: &Labels,
    report: &Report,
    walked: Walked,
) -> Option<BadLine>
    requires { IsWalked (first_bad (looks_at_tree (problem_of inst.now) report.now)) (tree_cost (problem_of inst.now) (tree_in report.now.tree) (all_classes (problem_of inst.now))) walked }
    ensures { result ≡ first_bad (head_looks (problem_of inst.now) labels.now report.now) }
{
    let bad = first_in_model(inst, labels, report);
    if bad.is_some() {
        return bad;
    }
    first_from_cost(inst, report, walked)
}
