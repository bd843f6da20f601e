//! The figures of a model, put together.

ghost use Rattle.std.specs.Prelude.{◌<◌, length, IfOk, IfSome};
ghost use Rattle.sig_matrix.specs.Detection.{IsMatrixOf, system_of};
ghost use Rattle.sig_matrix.specs.Valid.{IsValid};
ghost use Rattle.sig_classes.specs.Classes.{AreClassesOf};
ghost use Rattle.sig_figures.specs.Figures.{AreFigures, AreNamed};

use crate::columns::{blind_tests, equal_tests};
use crate::coverage::{detected_weight, fault_weight, undetected_faults};
use crate::loops::looped_nodes;
use crate::sizes::sizes_of;
use sig_classes::Classes;
use sig_flat::Flat;
use sig_matrix::Matrix;
use sig_types::List;
use std::alloc::{AllocError, Global};

/// What the tests of a model can tell. Faults, tests and nodes are named by their numbers in the matrix and the flat
/// model.
#[derive(Debug, Drop)]
pub struct Figures {
    /// How many faults and tests there are.
    pub faults: u32,
    pub tests: u32,
    /// The weight of all faults, and of those that some test detects.
    pub fault_weight: u64,
    pub detected_weight: u64,
    /// How many ambiguity groups there are, that of no fault included.
    pub classes: u32,
    /// For each number of states, upwards, how many faults lie in ambiguity groups of so many states, where there are any.
    pub sizes: List<SizeCount>,
    /// The faults that no test detects.
    pub undetected: List<u32>,
    /// The tests that detect no fault.
    pub blind: List<u32>,
    /// The tests that detect the same faults as an earlier one.
    pub equal: List<EqualTest>,
    /// The nodes on a loop.
    pub looped: List<u32>,
}

/// How many faults lie in ambiguity groups of so many states.
#[derive(Clone, Copy, Debug)]
pub struct SizeCount {
    pub states: u32,
    pub faults: u32,
}

/// A test, and the first test that detects the same faults.
#[derive(Clone, Copy, Debug)]
pub struct EqualTest {
    pub test: u32,
    pub first: u32,
}

/// The figures of a flat model with its matrix and ambiguity groups, for one mode, or for all where none is named.
/// Columns are compared by one pass over the rows for each test, a whole row at a time; the loops cost a look at each
/// node and link for each mode.
pub fn figures_of(
    alloc: Global,
    flat: &Flat,
    matrix: &Matrix,
    classes: &Classes,
    mode: Option<u32>,
) -> Result<Figures, AllocError>
    requires mode { IfSome mode (λ m. m < length flat.now.modes) }
    requires matrix { IsMatrixOf flat.now mode matrix.now }
    requires valid { IsValid matrix.now }
    requires classes { AreClassesOf (system_of matrix.now) classes.now }

    ensures figures { IfOk result (λ figures. AreFigures flat.now mode matrix.now figures) }
    ensures named { IfOk result (λ figures. AreNamed flat.now matrix.now figures) }
{
    let sizes = sizes_of(alloc, matrix, classes)?;
    let undetected = undetected_faults(alloc, matrix)?;
    let blind = blind_tests(alloc, matrix)?;
    let equal = equal_tests(alloc, matrix)?;
    let looped = looped_nodes(alloc, flat, mode)?;
    Ok(Figures {
        faults: matrix.faults.len() as u32,
        tests: matrix.tests.len() as u32,
        fault_weight: fault_weight(matrix),
        detected_weight: detected_weight(matrix),
        classes: classes.weights.len() as u32,
        sizes,
        undetected,
        blind,
        equal,
        looped,
    })
}
