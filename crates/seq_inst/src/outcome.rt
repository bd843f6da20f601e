//! What a search ends with: a strategy, its cost, a lower bound, and the entered groups that show it.
ghost use Rattle.std.specs.Prelude.{◌≡◌};
ghost use Rattle.seq_inst.specs.Verdicts.{verdict_word};

use crate::group::Group;
use crate::strategy::Strategy;

/// An entered group with a lower and an upper bound of its least cost.
#[derive(Clone, Copy, Debug)]
pub struct Row {
    pub group: Group,
    pub low: u64,
    pub up: u64,
}

/// Whether the strategy is of least cost, or the limit of groups was met before that was shown.
#[derive(Clone, Copy, Debug, PartialEq, Eq)]
pub enum Verdict {
    Optimal,
    Bounded,
}

impl Verdict {
    /// The verdict as it is written.
    pub fn word(self) -> &'static str
        ensures { result.now ≡ verdict_word self }
    {
        match self {
            Verdict::Optimal => "optimal",
            Verdict::Bounded => "bounded",
        }
    }
}

/// The outcome of a search: costs are sums of weight times cost.
#[derive(Drop)]
pub struct Outcome {
    pub verdict: Verdict,
    pub strategy: Strategy,
    /// What the strategy costs over all classes.
    pub cost: u64,
    /// A lower bound of the least cost over all classes.
    pub low: u64,
    /// How many groups could be entered.
    pub limit: u32,
    pub rows: Vec<Row>,
    /// A group that was wanted and found no room.
    pub missed: Option<Group>,
}
