//! How many faults lie in ambiguity groups of each size.
//!
//! Numbers are counted into lists: the states by their groups, and then the faults by the sizes of their groups. So the
//! work is one pass over the states and one over the faults.

ghost use Rattle.std.specs.Prelude.{◌≡◌, ◌<◌, ◌^◌, map, length, All, IfOk};
ghost use Rattle.sig_matrix.specs.Detection.{system_of};
ghost use Rattle.sig_matrix.specs.Valid.{IsValid};
ghost use Rattle.sig_classes.specs.Classes.{AreClassesOf};
ghost use Rattle.sig_figures.specs.Coverage.{all_faults};
ghost use Rattle.sig_figures.specs.Sizes.{group_size, size_counts};
ghost use Rattle.sig_figures.specs.Counts.{counts_of, some_counts};

use crate::summary::SizeCount;
use sig_classes::Classes;
use sig_matrix::Matrix;
use sig_types::List;
use std::alloc::{AllocError, Global};

/// How many times each number below a bound stands in the list.
fn counts_of(alloc: Global, numbers: &[u32], bound: usize) -> Result<Vec<u32>, AllocError>
    requires below { All (λ n. n < bound) numbers.now }
    requires few { length numbers.now < 2 ^ 32 }
    ensures { IfOk result (λ counts. counts.items ≡ counts_of numbers.now bound) }
{
    let mut counts = vec![in alloc; 0u32; bound]?;
    for number in numbers {
        counts[*number as usize] += 1;
    }
    Ok(counts)
}

/// For each fault, how many states its ambiguity group has.
fn group_sizes(alloc: Global, matrix: &Matrix, classes: &Classes) -> Result<Vec<u32>, AllocError>
    requires valid { IsValid matrix.now }
    requires classes { AreClassesOf (system_of matrix.now) classes.now }
    ensures { IfOk result (λ sizes. sizes.items ≡ map (group_size matrix.now) (all_faults matrix.now)) }
{
    let states = counts_of(alloc, classes.class_of.as_slice(), classes.weights.len())?;
    let before = matrix.states() as usize - matrix.faults.len();
    let mut sizes = Vec::with_capacity(alloc, matrix.faults.len())?;
    for fault in 0..matrix.faults.len() {
        let class = classes.class_of[before + fault];
        sizes.push(states[class as usize])?;
    }
    Ok(sizes)
}

/// Each number with its count, where that isn't 0.
fn some_counts(alloc: Global, counts: &[u32]) -> Result<List<SizeCount>, AllocError>
    requires { length counts.now < 2 ^ 32 }
    ensures { IfOk result (λ sizes. sizes ≡ some_counts counts.now) }
{
    let mut sizes = List::new(alloc);
    for states in 0..counts.len() {
        let faults = counts[states];
        if faults > 0 {
            sizes.push(SizeCount {
                states: states as u32,
                faults,
            })?;
        }
    }
    Ok(sizes)
}

/// For each number of states, upwards, how many faults lie in ambiguity groups of so many states, where there are any.
pub fn sizes_of(
    alloc: Global,
    matrix: &Matrix,
    classes: &Classes,
) -> Result<List<SizeCount>, AllocError>
    requires valid { IsValid matrix.now }
    requires classes { AreClassesOf (system_of matrix.now) classes.now }
    ensures { IfOk result (λ sizes. sizes ≡ size_counts matrix.now) }
{
    let sizes = group_sizes(alloc, matrix, classes)?;
    let counts = counts_of(alloc, sizes.as_slice(), matrix.states() as usize + 1)?;
    let sizes = some_counts(alloc, counts.as_slice())?;
    Ok(sizes)
}
