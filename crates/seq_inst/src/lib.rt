//! Instances of test sequencing as the program holds them: groups of classes as 512 bits, weights,
//! costs, which classes pass each test, and strategies. `problem_of`, `members` and `tree_of` read
//! them into the theory, and each call here says its result by the theory's words.
#![tactic(auto)]

mod ahead;
mod checked;
mod costs;
mod group;
mod instance;
mod outcome;
mod parts;
mod strategy;
#[cfg(test)]
mod tests;
mod walks;
mod weights;
mod words;

pub use ahead::Ahead;
pub use checked::checked_holds;
pub use costs::cost_of;
pub use group::{Group, count_of};
pub use instance::Instance;
pub use outcome::{Outcome, Row, Verdict};
pub use parts::{Answer, Parts, is_leaf, part, parts_of, root, splits};
pub use strategy::{Strategy, ask_first};
pub use walks::{Walk, walk_of};
pub use weights::weight_of;
pub use words::{group_stands, same_words_hold};
