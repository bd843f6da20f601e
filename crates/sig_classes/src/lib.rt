//! Ambiguity groups: the states of a system under test that no test tells apart are one class. From a
//! matrix of faults by tests come the classes with the weights of their states, the instance of test
//! sequencing over classes that a search takes, and the labels that a report names states by. The
//! theory of test sequencing says why a strategy over classes is one over single states.
#![tactic(auto)]

mod classes;
mod instance;
mod labels;

pub use classes::{Classes, classes_of};
pub use instance::instance_of;
pub use labels::labels_of;

#[cfg(test)]
mod tests;
