//! The ambiguity group of each state, and what each group weighs. Rows of the matrix are numbered by a
//! map in the order of first occurrence, so one pass over the states finds all groups, however many
//! there are.
ghost use Rattle.std.specs.Prelude.{IfOk};
ghost use Rattle.sig_matrix.specs.Valid.{IsValid};
ghost use Rattle.sig_matrix.specs.Detection.{system_of};

use indexmap::IndexSet;
use seq_theory::groups_hold;
use sig_matrix::Matrix;
use std::alloc::{AllocError, Global};

/// The ambiguity groups of a matrix, numbered from 0 by their first states.
#[derive(Debug, Drop)]
pub struct Classes {
    /// By state, the class that it is in.
    pub class_of: Vec<u32>,
    /// By class, what its states weigh together.
    pub weights: Vec<u64>,
}

impl Classes {
    ghost use Rattle.std.specs.Prelude.{◌≡◌, ℕ, ◌+◌, ◌^◌, ◌<◌, length, slice_index, [], ◌∷◌, ◌++◌, OnOk};
    ghost use Rattle.std.specs.List.{position_or_len};
    ghost use Rattle.std.specs.Str.{bytes_eq};
    ghost use Rattle.indexmap.specs.IndexSet.{insert_key};
    ghost use Rattle.sig_matrix.specs.Detection.{AreFourWords};
    ghost use Rattle.sig_classes.specs.Grouping.{with_weight};

    /// Puts one more state to the class of its row, the first of which is new. `seen` has the rows by
    /// class.
    fn add_state(
        &mut self,
        seen: &mut IndexSet<[u64; 4]>,
        row: [u64; 4],
        weight: u32,
    ) -> Result<(), AllocError>
        requires few { length seen.old.keys < 2 ^ 32 }
        requires room { (c : ℕ) → slice_index self.old.weights.items c + weight < 2 ^ 64 }

        ensures words { AreFourWords row }
        ensures rows { OnOk result (seen.new.keys ≡ insert_key bytes_eq seen.old.keys row) }
        ensures class { OnOk result (self.new.class_of.items ≡ self.old.class_of.items ++ position_or_len (bytes_eq row) seen.old.keys ∷ []) }
        ensures weights { OnOk result (self.new.weights.items ≡ with_weight self.old.weights.items (position_or_len (bytes_eq row) seen.old.keys) weight) }
    {
        let (class, _) = seen.insert_full(row)?;
        self.class_of.push(class as u32)?;
        if class < self.weights.len() {
            self.weights[class] += weight as u64;
        } else {
            self.weights.push(weight as u64)?;
        }
        Ok(())
    }
}

ghost use Rattle.sig_classes.specs.Classes.{AreClassesOf};

/// The classes of a matrix: states are in one class where their rows are equal. Takes one look-up a
/// state.
pub fn classes_of(alloc: Global, matrix: &Matrix) -> Result<Classes, AllocError>
    requires { IsValid matrix.now }
    ensures { IfOk result (λ c. AreClassesOf (system_of matrix.now) c) }
{
    groups_hold();
    let mut seen = IndexSet::new(alloc);
    let mut classes = Classes {
        class_of: Vec::with_capacity(alloc, matrix.states() as usize)?,
        weights: Vec::new(alloc),
    };
    for state in 0..matrix.states() {
        classes.add_state(&mut seen, matrix.row(state), matrix.weight(state))?;
    }
    Ok(classes)
}
