//! Testability figures: what the tests of a system can tell, in numbers and lists, and their text.
//!
//! The layer takes a flat model with its matrix and ambiguity groups. It sums the weight of the faults that some test
//! detects, counts the faults by the size of their ambiguity groups, and names what an engineer looks at: faults that no
//! test detects, tests that detect nothing or the same as an earlier one, and nodes on a loop.
#![tactic(auto)]

mod columns;
mod coverage;
mod loops;
mod sizes;
mod summary;
mod text;

pub use summary::{EqualTest, Figures, SizeCount, figures_of};
pub use text::figures_text;

#[cfg(test)]
mod tests;
