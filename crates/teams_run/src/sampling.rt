//! The sample: a chain of parts that the program makes itself, which is checked, unfolded and solved by the same calls as
//! the model of a file, and summed up in a few lines. No chain is refused, so only memory can fail.
ghost use Rattle.std.specs.Prelude.{◌≡◌, ◌≤◌, length, None, IfOk, IfErr, OnOk};
ghost use Rattle.seq_theory.specs.States.{IsOfClasses, firsts, problem_of_classes};
ghost use Rattle.seq_inst.specs.Instances.{problem_of};
ghost use Rattle.sig_types.specs.Breaches.{breaches};
ghost use Rattle.sig_lines.specs.Pieces.{bytes_of};
ghost use Rattle.sig_lines.specs.Written.{with_lines};
ghost use Rattle.sig_flat.specs.Flats.{IsFlatOf};
ghost use Rattle.sig_flat.specs.Valid.{IsValid as IsValidFlat};
ghost use Rattle.sig_matrix.specs.Valid.{IsValid};
ghost use Rattle.sig_matrix.specs.Detection.{IsMatrixOf, system_of};
ghost use Rattle.teams_words.specs.Plans.{IsSize, IsProper};
ghost use Rattle.teams_run.specs.Samples.{chain_model, summary_lines};
ghost use Rattle.teams_run.specs.Runs.{IsDueOfChain};

use crate::due::Due;
use crate::searching::outcome_of;
use crate::solving::outcome_stands;
use seq_inst::{Instance, Outcome};
use sig_classes::{classes_of, instance_of};
use sig_flat::{Flat, flatten};
use sig_lines::Lines;
use sig_matrix::{Matrix, matrix_of};
use sig_sample::sample;
use sig_types::ModelFault;
use std::alloc::{AllocError, Global};
use teams_words::{Action, Plan};

/// The flat model of the chain of so many parts.
#[tactic(auto, using(crate::proofs::SampleLaws::chain_fits))]
fn flat_of_chain(alloc: Global, parts: u32) -> Result<Flat, AllocError>
    requires { IsSize parts }
    ensures flat { IfOk result (IsFlatOf (chain_model parts)) }
    ensures valid { IfOk result IsValidFlat }
{
    let valid = match sample(alloc, parts)?.check(alloc) {
        Ok(valid) => valid,
        Err(ModelFault::OutOfMemory) => return Err(AllocError),
        Err(ModelFault::Refused(_)) => unreachable!(),
    };
    match flatten(alloc, &valid) {
        Ok(flat) => Ok(flat),
        Err(ModelFault::OutOfMemory) => Err(AllocError),
        Err(ModelFault::Refused(_)) => unreachable!(),
    }
}

/// The instance of a matrix with few ambiguity groups.
fn instance_of_few(alloc: Global, matrix: &Matrix) -> Result<Instance, AllocError>
    requires valid { IsValid matrix.now }
    requires few { length (firsts (system_of matrix.now)) ≤ 512 }
    ensures classes { IfOk result (λ inst. IsOfClasses (system_of matrix.now) (problem_of inst)) }
    ensures problem { IfOk result (λ inst. problem_of inst ≡ problem_of_classes (system_of matrix.now)) }
{
    let classes = classes_of(alloc, matrix)?;
    match instance_of(alloc, matrix, &classes) {
        Ok(inst) => Ok(inst),
        Err(ModelFault::OutOfMemory) => Err(AllocError),
        Err(ModelFault::Refused(_)) => unreachable!(),
    }
}

/// The chain has few ambiguity groups.
fn chain_is_small(parts: u32, flat: &Flat, matrix: &Matrix)
    requires parts { IsSize parts }
    requires flat { IsFlatOf (chain_model parts) flat.now }
    requires matrix { IsMatrixOf flat.now None matrix.now }
    ensures { length (firsts (system_of matrix.now)) ≤ 512 }
{}

/// Writes the lines of the summary.
fn write_summary(
    out: &mut Lines,
    parts: u32,
    matrix: &Matrix,
    inst: &Instance,
    outcome: &Outcome,
) -> Result<(), AllocError>
    requires { IsValid matrix.now }
    ensures { OnOk result (out.new ≡ with_lines out.old (summary_lines parts matrix.now (problem_of inst.now) outcome.now)) }
{
    out.line(&["teams", "sample", "1"])?;
    out.number_line("parts", u64::from(parts))?;
    out.number_line("states", u64::from(matrix.states()))?;
    out.number_line("classes", inst.weights.len() as u64)?;
    out.number_line("tests", matrix.tests.len() as u64)?;
    out.line(&["result", outcome.verdict.word()])?;
    out.number_line("cost", outcome.cost)?;
    out.number_line("low", outcome.low)?;
    out.number_line("groups", outcome.rows.len() as u64)?;
    out.line(&["end"])
}

/// The summary.
fn summary_text(
    alloc: Global,
    parts: u32,
    matrix: &Matrix,
    inst: &Instance,
    outcome: &Outcome,
) -> Result<Vec<u8>, AllocError>
    requires { IsValid matrix.now }
    ensures { IfOk result (λ text. text.items ≡ bytes_of (summary_lines parts matrix.now (problem_of inst.now) outcome.now)) }
{
    let mut out = Lines::new(alloc);
    write_summary(&mut out, parts, matrix, inst, outcome)?;
    Ok(out.into_bytes())
}

/// What `sample` writes.
#[tactic(auto, using(crate::proofs::SampleLaws::sums_up))]
pub fn sample_due(alloc: Global, plan: &Plan) -> Result<Due, AllocError>
    requires proper { IsProper plan.now }
    requires action { plan.now.action ≡ Action.Sample }
    ensures { IfOk result (λ due. IsDueOfChain plan.now due.status due.text.items) }
{
    let parts = plan.parts();
    let flat = flat_of_chain(alloc, parts)?;
    let matrix = matrix_of(alloc, &flat, None)?;
    chain_is_small(parts, &flat, &matrix);
    let inst = instance_of_few(alloc, &matrix)?;
    let outcome = outcome_of(alloc, &inst, plan.groups)?;
    outcome_stands(&matrix, &inst, &outcome, plan.groups);
    let text = summary_text(alloc, parts, &matrix, &inst, &outcome)?;
    Ok(Due::of_verdict(outcome.verdict, text))
}
