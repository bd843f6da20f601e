//! What a worker of the parallel search passes at the start of each of its turns. It has no meaning for any answer. A test
//! can hold a worker at its gate, and so show what two workers do at once.

/// Called by each worker at the start of each turn.
pub trait Gate {
    /// `worker` and `turn` are numbers from 0. A turn is counted by its own worker.
    fn turn(&self, worker: u32, turn: u64);
}

/// Lets every worker pass at once.
#[derive(Clone, Copy, Debug, PartialEq, Eq)]
pub struct FreeGate;

impl Gate for FreeGate {
    fn turn(&self, _worker: u32, _turn: u64) {}
}
