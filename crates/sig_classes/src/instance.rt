//! The instance of test sequencing whose classes are the ambiguity groups. A test passes for a class as
//! for each of its states, since these have equal rows; so only the first state of each class is looked
//! at.
ghost use Rattle.std.specs.Prelude.{◌≡◌, ◌<◌, ◌≤◌, length, map, IfOk, IfErr, OnOk};
ghost use Rattle.sig_matrix.specs.Valid.{IsValid};
ghost use Rattle.sig_matrix.specs.Detection.{system_of};
ghost use Rattle.seq_inst.specs.Instances.{problem_of};
ghost use Rattle.seq_theory.specs.States.{IsOfClasses, firsts, problem_of_classes};
ghost use Rattle.sig_classes.specs.Classes.{AreClassesOf};
ghost use Rattle.sig_classes.specs.Refusals.{TellsManyClasses};
ghost use Rattle.sig_classes.specs.Passing.{ArePassing, AreEightWords, AddsClass, AddsTo};

use crate::classes::Classes;
use seq_inst::{Group, Instance};
use seq_theory::classes_hold;
use sig_lines::TestLabel;
use sig_matrix::{Matrix, has_test};
use sig_types::{Code, Counted, ModelFault, Place, Refusal};
use std::alloc::{AllocError, Global};

/// An instance has at most so many classes.
const MOST_CLASSES: usize = 512;

/// The instance over the classes: weights by class, costs by test, and by test the classes that don't
/// fail it. M13 at the classes comes exactly where there are more than 512.
pub fn instance_of(
    alloc: Global,
    matrix: &Matrix,
    classes: &Classes,
) -> Result<Instance, ModelFault>
    requires valid { IsValid matrix.now }
    requires classes { AreClassesOf (system_of matrix.now) classes.now }

    ensures instance { IfOk result (λ inst. IsOfClasses (system_of matrix.now) (problem_of inst)) }
    ensures problem { IfOk result (λ inst. problem_of inst ≡ problem_of_classes (system_of matrix.now)) }
    ensures few { OnOk result (length (firsts (system_of matrix.now)) ≤ 512) }
    ensures many { IfErr result (TellsManyClasses (length (firsts (system_of matrix.now)))) }
{
    if classes.weights.len() > MOST_CLASSES {
        return Err(ModelFault::Refused(Refusal {
            code: Code::M13,
            place: Place::Count(Counted::Classes),
        }));
    }
    match instance_of_few(alloc, matrix, classes) {
        Ok(inst) => Ok(inst),
        Err(_) => Err(ModelFault::OutOfMemory),
    }
}

/// The instance, where there are few enough classes.
fn instance_of_few(
    alloc: Global,
    matrix: &Matrix,
    classes: &Classes,
) -> Result<Instance, AllocError>
    requires valid { IsValid matrix.now }
    requires classes { AreClassesOf (system_of matrix.now) classes.now }
    requires few { length (firsts (system_of matrix.now)) ≤ 512 }
    ensures instance { IfOk result (λ inst. IsOfClasses (system_of matrix.now) (problem_of inst)) }
    ensures problem { IfOk result (λ inst. problem_of inst ≡ problem_of_classes (system_of matrix.now)) }
{
    classes_hold();
    let weights = Vec::from_slice(alloc, classes.weights.as_slice())?;
    let costs = costs_of(alloc, matrix.tests.as_slice())?;
    let passes = passes_of(alloc, matrix, classes)?;
    Ok(Instance::new(weights, costs, passes))
}

fn costs_of(alloc: Global, tests: &[TestLabel]) -> Result<Vec<u32>, AllocError>
    ensures { IfOk result (λ costs. costs.items ≡ map (λ test. test.cost) tests.now) }
{
    tests.iter().map(|test| test.cost).collect(alloc)
}

/// By test, the classes that don't fail it.
fn passes_of(alloc: Global, matrix: &Matrix, classes: &Classes) -> Result<Vec<Group>, AllocError>
    requires valid { IsValid matrix.now }
    requires classes { AreClassesOf (system_of matrix.now) classes.now }
    requires few { length (firsts (system_of matrix.now)) ≤ 512 }
    ensures { IfOk result (λ passes. ArePassing (system_of matrix.now) passes.items) }
{
    let mut passes = vec![in alloc; Group([0; 8]); matrix.tests.len()]?;
    let mut found = 0;
    for state in 0..matrix.states() {
        if classes.class_of[state as usize] == found {
            add_class(passes.as_mut_slice(), matrix.row(state), found);
            found += 1;
        }
    }
    Ok(passes)
}

/// Adds the class to each test that its row doesn't fail.
fn add_class(passes: &mut [Group], row: [u64; 4], class: u32)
    requires tests { length passes.old ≤ 256 }
    requires words { AreEightWords passes.old }
    requires class { class < 512 }
    ensures { AddsClass row class passes.old passes.new }
{
    for (test, group) in passes.iter_mut().enumerate() {
        if !has_test(row, test as u32) {
            add_to(group, class);
        }
    }
}

fn add_to(group: &mut Group, class: u32)
    requires words { length group.old.0 ≡ 8 }
    requires class { class < 512 }
    ensures { AddsTo class group.old group.new }
{
    group.0[(class / 64) as usize] |= 1 << (class % 64);
}
