//! What a report calls states and tests: each state with its weight, its label and its class, each test
//! with its cost and its label.
ghost use Rattle.std.specs.Prelude.{◌≡◌, IfOk};
ghost use Rattle.sig_matrix.specs.Valid.{IsValid};
ghost use Rattle.sig_matrix.specs.Detection.{system_of};
ghost use Rattle.sig_classes.specs.Classes.{AreClassesOf};
ghost use Rattle.sig_classes.specs.Labels.{state_labels_of, labels_from};

use crate::classes::Classes;
use sig_lines::{Labels, StateLabel, TestLabel};
use sig_matrix::Matrix;
use sig_types::{List, Text};
use std::alloc::{AllocError, Global};

/// The labels of a matrix, under a mode's name, or `-` where none was named.
pub fn labels_of(
    alloc: Global,
    matrix: &Matrix,
    classes: &Classes,
    mode: &str,
) -> Result<Labels, AllocError>
    requires valid { IsValid matrix.now }
    requires classes { AreClassesOf (system_of matrix.now) classes.now }
    ensures { IfOk result (λ labels. labels ≡ labels_from matrix.now mode.now) }
{
    Ok(Labels {
        mode: Text::of(alloc, mode)?,
        states: state_labels(alloc, matrix, classes)?,
        tests: test_labels(alloc, matrix)?,
    })
}

fn state_labels(
    alloc: Global,
    matrix: &Matrix,
    classes: &Classes,
) -> Result<List<StateLabel>, AllocError>
    requires valid { IsValid matrix.now }
    requires classes { AreClassesOf (system_of matrix.now) classes.now }
    ensures { IfOk result (λ states. states ≡ state_labels_of matrix.now) }
{
    let mut states = List::new(alloc);
    for state in 0..matrix.states() {
        states.push(StateLabel {
            weight: matrix.weight(state),
            label: Text::of(alloc, matrix.label(state))?,
            class: classes.class_of[state as usize],
        })?;
    }
    Ok(states)
}

fn test_labels(alloc: Global, matrix: &Matrix) -> Result<List<TestLabel>, AllocError>
    ensures { IfOk result (λ tests. tests ≡ matrix.now.tests) }
{
    let mut tests = List::new(alloc);
    for test in matrix.tests.as_slice() {
        tests.push(TestLabel {
            cost: test.cost,
            label: Text::of(alloc, test.label.as_str())?,
        })?;
    }
    Ok(tests)
}
