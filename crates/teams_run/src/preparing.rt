//! The instance of a matrix, on which a search and a check stand, with the labels of its report.
ghost use Rattle.std.specs.Prelude.{IfOk, IfErr};
ghost use Rattle.sig_matrix.specs.Valid.{IsValid};
ghost use Rattle.sig_matrix.specs.Detection.{system_of};
ghost use Rattle.teams_run.specs.Ready.{IsPrepared};
ghost use Rattle.sig_types.specs.Refused.{TellsFirst};
ghost use Rattle.teams_run.specs.Solved.{class_refusals};

use seq_inst::Instance;
use sig_classes::{classes_of, instance_of, labels_of};
use sig_lines::Labels;
use sig_matrix::Matrix;
use sig_types::ModelFault;
use std::alloc::Global;

/// The ambiguity groups of a matrix as an instance, and the labels of states and tests.
#[derive(Drop)]
pub struct Prepared {
    pub inst: Instance,
    pub labels: Labels,
}

/// The instance and the labels of the matrix, under a mode's name or `-`.
#[tactic(auto, using(crate::proofs::UnfitLaws::many_classes))]
pub fn prepare(alloc: Global, matrix: &Matrix, mode: &str) -> Result<Prepared, ModelFault>
    requires { IsValid matrix.now }
    ensures prepared { IfOk result (IsPrepared matrix.now mode.now) }
    ensures unsolved { IfErr result (TellsFirst (class_refusals (system_of matrix.now))) }
{
    let classes = classes_of(alloc, matrix)?;
    let inst = instance_of(alloc, matrix, &classes)?;
    let labels = labels_of(alloc, matrix, &classes, mode)?;
    Ok(Prepared { inst, labels })
}
