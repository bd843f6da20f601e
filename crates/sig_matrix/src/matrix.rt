//! A matrix, and what is read off it: which test detects which fault, and the states with their weights and labels.

ghost use Rattle.std.specs.Prelude.{◌≡◌, ◌<◌, ◌≤◌, length};
ghost use Rattle.std.specs.Option.{option_copied};
ghost use Rattle.sig_matrix.specs.Detection.{before_faults, detects, fails, state_count, state_fault, state_name, state_row, state_weight};

use crate::row::has_test;
use sig_lines::TestLabel;
use sig_types::{List, Text};

/// Which test detects which fault.
#[derive(Debug, Drop)]
pub struct Matrix {
    /// The weight of the state without a fault, or 0 where there is no such state.
    pub good: u32,
    pub faults: List<FaultRow>,
    pub tests: List<TestLabel>,
}

/// A fault with its row: test t is bit t % 64 of word t / 64.
#[derive(Debug, Drop)]
pub struct FaultRow {
    pub weight: u32,
    pub label: Text,
    pub row: [u64; 4],
}

impl Matrix {
    /// Whether the test detects the fault.
    pub fn detects(&self, fault: u32, test: u32) -> bool
        requires fault { fault < length self.now.faults }
        requires test { test < 256 }
        ensures { result ≡ detects self.now fault test }
    {
        has_test(self.faults.as_slice()[fault as usize].row, test)
    }

    /// How many states come before the faults.
    fn before_faults(&self) -> u32
        ensures { result ≡ before_faults self.now }
    {
        if self.good == 0 { 0 } else { 1 }
    }

    /// The fault that is present in the state, if there is one.
    fn fault_in(&self, state: u32) -> Option<&FaultRow>
        requires { state < state_count self.now }
        ensures { option_copied result ≡ state_fault self.now state }
    {
        let before = self.before_faults();
        if state < before {
            None
        } else {
            Some(&self.faults.as_slice()[(state - before) as usize])
        }
    }

    /// How many states there are: no fault, where it has a weight, and the faults.
    pub fn states(&self) -> u32
        requires { length self.now.faults ≤ 4096 }
        ensures { result ≡ state_count self.now }
    {
        self.before_faults() + self.faults.len() as u32
    }

    /// Whether the test fails in the state.
    pub fn fails(&self, state: u32, test: u32) -> bool
        requires state { state < state_count self.now }
        requires test { test < 256 }
        ensures { result ≡ fails self.now state test }
    {
        let before = self.before_faults();
        state >= before && self.detects(state - before, test)
    }

    /// The row of the state; no test fails without a fault.
    pub fn row(&self, state: u32) -> [u64; 4]
        requires { state < state_count self.now }
        ensures { result ≡ state_row self.now state }
    {
        match self.fault_in(state) {
            None => [0; 4],
            Some(fault) => fault.row,
        }
    }

    /// The weight of the state.
    pub fn weight(&self, state: u32) -> u32
        requires { state < state_count self.now }
        ensures { result ≡ state_weight self.now state }
    {
        match self.fault_in(state) {
            None => self.good,
            Some(fault) => fault.weight,
        }
    }

    /// What the state is called: `good`, or the fault's label.
    pub fn label(&self, state: u32) -> &str
        requires { state < state_count self.now }
        ensures { result.now ≡ state_name self.now state }
    {
        match self.fault_in(state) {
            None => "good",
            Some(fault) => fault.label.as_str(),
        }
    }
}
