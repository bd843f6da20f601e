//! What the states and the tests of a system are called, with what a report says of them beside: the
//! weight and the class of each state, the cost of each test.
use sig_types::{List, Text};

/// A state: its weight, its label, and the number of the class that it is in, from 0.
#[derive(Debug, Drop)]
pub struct StateLabel {
    pub weight: u32,
    pub label: Text,
    pub class: u32,
}

/// A test: its cost and its label.
#[derive(Debug, Drop)]
pub struct TestLabel {
    pub cost: u32,
    pub label: Text,
}

/// What the states and tests are called: `states` is indexed by state, `tests` by test.
#[derive(Debug, Drop)]
pub struct Labels {
    /// The mode that was named, or `-`.
    pub mode: Text,
    pub states: List<StateLabel>,
    pub tests: List<TestLabel>,
}
