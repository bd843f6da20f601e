//! From the outcome of a search to the report of a strategy: what it says, and its text. The
//! search works on ambiguity groups; what is promised speaks of single states, and the theory's passage
//! from the one to the other joins the two.
ghost use Rattle.std.specs.Prelude.{◌≤◌, length, IfOk};
ghost use Rattle.seq_theory.specs.States.{IsOfClasses, firsts};
ghost use Rattle.seq_theory.specs.Tree.{AsksOnly};
ghost use Rattle.seq_inst.specs.Instances.{problem_of};
ghost use Rattle.seq_inst.specs.Trees.{tree_of};
ghost use Rattle.sig_matrix.specs.Valid.{IsValid};
ghost use Rattle.sig_matrix.specs.Detection.{system_of};
ghost use Rattle.sig_classes.specs.Labels.{labels_from};
ghost use Rattle.seq_finish.specs.Outcomes.{IsRightOutcome};
ghost use Rattle.seq_shown.specs.Laws.{ArePrintable};
ghost use Rattle.teams_words.specs.Plans.{IsLimit};
ghost use Rattle.teams_run.specs.Ready.{IsPrepared};
ghost use Rattle.teams_run.specs.Solved.{IsSolution, IsSolved};

use crate::preparing::Prepared;
use seq_cert::report_of;
use seq_check::certified_holds;
use seq_finish::outcomes_hold;
use seq_inst::{Instance, Outcome, Verdict};
use seq_shown::{outcomes_print, reports_hold};
use seq_theory::{classes_hold, has_least, passage_holds};
use sig_matrix::Matrix;
use std::alloc::{AllocError, Global};

/// The text of a report, with the verdict that it prints.
#[derive(Drop)]
pub struct Solution {
    pub verdict: Verdict,
    pub text: Vec<u8>,
}

/// A right outcome over the ambiguity groups says the same of the states.
pub fn outcome_stands(matrix: &Matrix, inst: &Instance, outcome: &Outcome, groups: u32)
    requires valid { IsValid matrix.now }
    requires few { length (firsts (system_of matrix.now)) ≤ 512 }
    requires inst { IsOfClasses (system_of matrix.now) (problem_of inst.now) }
    requires right { IsRightOutcome (problem_of inst.now) groups outcome.now }
    ensures { IsSolved (system_of matrix.now) (problem_of inst.now) groups outcome.now }
{
    passage_holds();
    classes_hold();
    has_least();
    outcomes_hold();
}

/// The report of a strategy for the system of the matrix.
pub fn solution_of(
    alloc: Global,
    matrix: &Matrix,
    prepared: &Prepared,
    mode: &str,
    groups: u32,
    outcome: &Outcome,
) -> Result<Solution, AllocError>
    requires valid { IsValid matrix.now }
    requires prepared { IsPrepared matrix.now mode.now prepared.now }
    requires printable { ArePrintable (labels_from matrix.now mode.now) }
    requires limit { IsLimit groups }
    requires right { IsRightOutcome (problem_of prepared.now.inst) groups outcome.now }
    requires there { AsksOnly (problem_of prepared.now.inst).tests (tree_of outcome.now.strategy) }
    requires order { outcome.now.low ≤ outcome.now.cost }
    ensures { IfOk result (λ s. IsSolution (system_of matrix.now) (labels_from matrix.now mode.now) groups s.verdict s.text.items) }
{
    outcome_stands(matrix, &prepared.inst, outcome, groups);
    reports_hold();
    outcomes_print();
    certified_holds();
    let text = report_of(alloc, &prepared.inst, outcome, &prepared.labels)?;
    Ok(Solution {
        verdict: outcome.verdict,
        text,
    })
}
