//! What a report says, line by line. A report is told apart from its text: the writer makes the text of
//! an outcome's report, and a reader gives a report back. Where a line is known by its place, as that of
//! class K, the list holds it at that place; counts are the lengths of lists.
use seq_inst::{Group, Verdict};
use sig_lines::TestLabel;
use sig_types::{List, Text};

/// A state of a class.
#[derive(Debug, Drop)]
pub struct StateLine {
    pub weight: u64,
    pub label: Text,
}

/// A class with its states, in order of states.
#[derive(Debug, Drop)]
pub struct ClassLine {
    pub weight: u64,
    pub states: List<StateLine>,
}

/// A node of the strategy, in preorder: the test that is asked, or the class in which it ends.
#[derive(Clone, Copy, Debug, PartialEq, Eq)]
pub enum TreeLine {
    Ask { test: u32 },
    Leaf { class: u32 },
}

/// An entered group with its number of classes, and what is claimed to be at most its least cost.
#[derive(Clone, Copy, Debug)]
pub struct GroupLine {
    pub size: u32,
    pub group: Group,
    pub low: u64,
}

/// A group that was wanted and found no room, with its number of classes.
#[derive(Clone, Copy, Debug)]
pub struct MissedLine {
    pub size: u32,
    pub group: Group,
}

/// A report: `class_lines` is indexed by class, `test_lines` by test; the tree stands in preorder.
#[derive(Debug, Drop)]
pub struct Report {
    /// The mode that was named, or `-`.
    pub mode: Text,
    pub states: u32,
    pub classes: u32,
    pub tests: u32,
    /// The sum of all weights.
    pub weight: u64,
    pub verdict: Verdict,
    pub cost: u64,
    /// A proven lower bound of the least cost.
    pub low: u64,
    pub gap: u64,
    /// How many groups could be entered.
    pub limit: u32,
    pub class_lines: List<ClassLine>,
    pub test_lines: List<TestLabel>,
    pub tree: List<TreeLine>,
    pub groups: List<GroupLine>,
    pub missed: Option<MissedLine>,
}
