//! What is due for the bytes of a model, as a plan asks. All actions go the same way from the bytes to the
//! matrix, and part there; the check of a certificate goes on with a second file.
ghost use Rattle.std.specs.Prelude.{◌≡◌, ◌≢◌, ◌⊎◌, ◌<◌, ◌≤◌, length, option_map, IfOk, IfErr, IfSome};
ghost use Rattle.seq_theory.specs.Tree.{AsksOnly};
ghost use Rattle.seq_inst.specs.Instances.{problem_of};
ghost use Rattle.seq_inst.specs.Trees.{tree_of};
ghost use Rattle.seq_finish.specs.Outcomes.{IsRightOutcome};
ghost use Rattle.sig_flat.specs.Valid.{IsValid as IsValidFlat};
ghost use Rattle.sig_flat.specs.declared.flat.Flat.{Flat};
ghost use Rattle.sig_matrix.specs.Valid.{IsValid};
ghost use Rattle.sig_matrix.specs.Detection.{IsMatrixOf, system_of};
ghost use Rattle.sig_types.specs.Refused.{TellsFirst};
ghost use Rattle.sig_classes.specs.Labels.{labels_from};
ghost use Rattle.seq_shown.specs.Laws.{ArePrintable};
ghost use Rattle.teams_run.specs.Accepted.{IsMatrixOfText, mode_number, refusals};
ghost use Rattle.teams_words.specs.Plans.{IsLimit};
ghost use Rattle.teams_run.specs.Ready.{IsPrepared};
ghost use Rattle.teams_run.specs.Texts.{IsFiguresText, IsTextFor, IsAnswer, IsFaultOfBytes, fit_refusals, mode_word};

use crate::accepting::{flat_of_text, mode_of};
use crate::due::Due;
use crate::preparing::{Prepared, prepare};
use crate::solving::solution_of;
use crate::status::Status;
use seq_inst::Outcome;
use sig_classes::classes_of;
use sig_figures::{figures_of, figures_text};
use sig_flat::Flat;
use sig_matrix::{Matrix, matrix_of, matrix_text};
use sig_types::{ModelFault, Text};
use std::alloc::{AllocError, Global};
use teams_words::{Action, Plan};

/// The flat model and the matrix that the bytes of a text lead to.
#[derive(Drop)]
pub struct Accepted {
    flat: Flat,
    pub matrix: Matrix,
    mode: Option<u32>,
}

/// The mode's name, or `-`.
fn mode_word(mode: Option<&Text>) -> &str
    ensures { result.now ≡ mode_word (option_map (λ m. m.now) mode.entry) }
{
    match mode {
        Some(name) => name.as_str(),
        None => "-",
    }
}

/// The plan's mode by its name, or `-`.
pub fn mode_name(plan: &Plan) -> &str
    ensures { result.now ≡ mode_word plan.now.mode }
{
    mode_word(plan.mode.as_ref())
}

/// The labels of an accepted model are those of its flat model, which a report can show.
fn accepted_labels_print(plan: &Plan, content: &[u8], flat: &Flat, matrix: &Matrix)
    requires text { IsMatrixOfText content.now plan.now.mode flat.now matrix.now }
    requires valid { IsValid matrix.now }
    ensures { ArePrintable (labels_from matrix.now (mode_word plan.now.mode)) }
{}

/// The matrix of the text, in the plan's mode.
pub fn accept(alloc: Global, plan: &Plan, content: &[u8]) -> Result<Accepted, ModelFault>
    ensures text { IfOk result (λ a. IsMatrixOfText content.now plan.now.mode a.flat a.matrix) }
    ensures flat { IfOk result (λ a. IsValidFlat a.flat) }
    ensures there { IfOk result (λ a. IfSome a.mode (λ m. m < length a.flat.modes)) }
    ensures mode { IfOk result (λ a. a.mode ≡ mode_number a.flat.modes plan.now.mode) }
    ensures matrix { IfOk result (λ a. IsMatrixOf a.flat a.mode a.matrix) }
    ensures valid { IfOk result (λ a. IsValid a.matrix) }
    ensures labels { IfOk result (λ a. ArePrintable (labels_from a.matrix (mode_word plan.now.mode))) }
    ensures refused { IfErr result (TellsFirst (refusals content.now plan.now.mode)) }
{
    let flat = match flat_of_text(alloc, content) {
        Ok(flat) => flat,
        Err(fault) => return Err(fault),
    };
    let mode = mode_of(&flat, plan.mode.as_ref())?;
    let matrix = matrix_of(alloc, &flat, mode)?;
    accepted_labels_print(plan, content, &flat, &matrix);
    Ok(Accepted { flat, matrix, mode })
}

/// The text of the figures of testability.
fn figured(
    alloc: Global,
    flat: &Flat,
    matrix: &Matrix,
    mode: Option<u32>,
    name: &str,
) -> Result<Vec<u8>, AllocError>
    requires flat { IsValidFlat flat.now }
    requires mode { IfSome mode (λ m. m < length flat.now.modes) }
    requires matrix { IsMatrixOf flat.now mode matrix.now }
    requires valid { IsValid matrix.now }
    ensures { IfOk result (λ text. IsFiguresText flat.now matrix.now mode name.now text.items) }
{
    let classes = classes_of(alloc, matrix)?;
    let figures = figures_of(alloc, flat, matrix, &classes, mode)?;
    figures_text(alloc, flat, matrix, &figures, name)
}

/// The report of an outcome for a model that was ready for the search.
pub fn told(
    alloc: Global,
    plan: &Plan,
    accepted: &Accepted,
    prepared: &Prepared,
    outcome: &Outcome,
) -> Result<Due, AllocError>
    requires limit { IsLimit plan.now.groups }
    requires valid { IsValid accepted.now.matrix }
    requires labels { ArePrintable (labels_from accepted.now.matrix (mode_word plan.now.mode)) }
    requires prepared { IsPrepared accepted.now.matrix (mode_word plan.now.mode) prepared.now }
    requires right { IsRightOutcome (problem_of prepared.now.inst) plan.now.groups outcome.now }
    requires there { AsksOnly (problem_of prepared.now.inst).tests (tree_of outcome.now.strategy) }
    requires order { outcome.now.low ≤ outcome.now.cost }
    ensures { IfOk result (λ due. IsTextFor Action.Solve plan.now accepted.now.flat accepted.now.matrix due.status due.text.items) }
{
    let name = mode_name(plan);
    let matrix = &accepted.matrix;
    let solution = solution_of(alloc, matrix, prepared, name, plan.groups, outcome)?;
    Ok(Due::of_verdict(solution.verdict, solution.text))
}

/// A text that goes with Done.
fn done(text: Vec<u8>) -> Due
    ensures status { result.status ≡ Status.Done }
    ensures text { result.text ≡ text }
{
    Due {
        status: Status::Done,
        text,
    }
}

/// What an action writes of the model alone.
fn action_due(alloc: Global, plan: &Plan, accepted: &Accepted) -> Result<Due, ModelFault>
    requires quiet { plan.now.action ≢ Action.Solve }
    requires alone { plan.now.action ≢ Action.Check }
    requires file { plan.now.action ≢ Action.Sample }
    requires log { plan.now.action ≢ Action.Reason }
    requires limit { IsLimit plan.now.groups }
    requires flat { IsValidFlat accepted.now.flat }
    requires there { IfSome accepted.now.mode (λ m. m < length accepted.now.flat.modes) }
    requires mode { accepted.now.mode ≡ mode_number accepted.now.flat.modes plan.now.mode }
    requires matrix { IsMatrixOf accepted.now.flat accepted.now.mode accepted.now.matrix }
    requires valid { IsValid accepted.now.matrix }
    requires labels { ArePrintable (labels_from accepted.now.matrix (mode_word plan.now.mode)) }
    ensures text { IfOk result (λ due. IsTextFor plan.now.action plan.now accepted.now.flat accepted.now.matrix due.status due.text.items) }
    ensures unfit { IfErr result (TellsFirst (fit_refusals plan.now.action (system_of accepted.now.matrix))) }
{
    let matrix = &accepted.matrix;
    let name = mode_name(plan);
    match plan.action {
        Action::Matrix => {
            let text = matrix_text(alloc, matrix, name)?;
            Ok(done(text))
        }
        Action::Figures => {
            let text = figured(alloc, &accepted.flat, matrix, accepted.mode, name)?;
            Ok(done(text))
        }
        Action::Solve | Action::Check | Action::Sample | Action::Reason => unreachable!(),
    }
}

/// What the plan asks of the model that the bytes describe, where it needs no certificate.
pub fn answer_for(alloc: Global, plan: &Plan, content: &[u8]) -> Result<Due, ModelFault>
    requires quiet { plan.now.action ≢ Action.Solve }
    requires alone { plan.now.action ≢ Action.Check }
    requires file { plan.now.action ≢ Action.Sample }
    requires log { plan.now.action ≢ Action.Reason }
    requires limit { IsLimit plan.now.groups }
    ensures answer { IfOk result (λ due. IsAnswer plan.now content.now due.status due.text.items) }
    ensures refused { IfErr result (IsFaultOfBytes plan.now content.now) }
{
    let accepted = accept(alloc, plan, content)?;
    action_due(alloc, plan, &accepted)
}

/// The matrix of the text with its instance, for a search or the check of a certificate.
pub fn prepared_for(
    alloc: Global,
    plan: &Plan,
    content: &[u8],
) -> Result<(Accepted, Prepared), ModelFault>
    requires action { (plan.now.action ≡ Action.Solve) ⊎ (plan.now.action ≡ Action.Check) }
    ensures text { IfOk result (λ both. IsMatrixOfText content.now plan.now.mode both.0.flat both.0.matrix) }
    ensures valid { IfOk result (λ both. IsValid both.0.matrix) }
    ensures labels { IfOk result (λ both. ArePrintable (labels_from both.0.matrix (mode_word plan.now.mode))) }
    ensures prepared { IfOk result (λ both. IsPrepared both.0.matrix (mode_word plan.now.mode) both.1) }
    ensures refused { IfErr result (IsFaultOfBytes plan.now content.now) }
{
    let accepted = accept(alloc, plan, content)?;
    let prepared = prepare(alloc, &accepted.matrix, mode_name(plan))?;
    Ok((accepted, prepared))
}

/// The matrix of the text, over which a log is read.
pub fn accepted_for(alloc: Global, plan: &Plan, content: &[u8]) -> Result<Matrix, ModelFault>
    ensures text { IfOk result (λ matrix. (flat : Flat) × IsMatrixOfText content.now plan.now.mode flat matrix) }
    ensures valid { IfOk result IsValid }
    ensures refused { IfErr result (IsFaultOfBytes plan.now content.now) }
{
    let accepted = accept(alloc, plan, content)?;
    Ok(accepted.matrix)
}
