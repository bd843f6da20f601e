//! The rule of the words, which each step of each seat keeps.
use crate::view::{Terms, View};
use atomic_table::TableRule;

/// The words hold sound rows, and what each view knows is true of them.
pub struct Bounds;

impl TableRule<(), View, Terms> for Bounds {
    ghost use Rattle.seq_words.specs.Rule.{Kept, opener};

    ghost holds = { λ terms s. Kept terms.inst.value terms.limit s };

    ghost first = { λ terms. opener terms.inst.value terms.limit };
}
