//! On which line each part of a report begins. The line number of each part follows from the counts.
ghost use Rattle.std.specs.Prelude.{◌≡◌, ◌+◌, ◌^◌, ◌<◌};
ghost use Rattle.seq_check.specs.Lines.{class_length, tests_at, tree_at, groups_at, missed_at};

use seq_cert::{ClassLine, Report};

/// How many lines the classes take.
#[tactic(auto, using(crate::proofs::ClassLines::class_step))]
fn class_length(lines: &[ClassLine]) -> u32
    requires { class_length lines.now < 2 ^ 32 }
    ensures { result ≡ class_length lines.now }
{
    let mut length = 0;
    for line in lines {
        length += 1 + line.states.len() as u32;
    }
    length
}

/// The first lines of the parts that follow the classes.
#[derive(Clone, Copy, Debug)]
pub struct Places {
    pub tests: u32,
    pub tree: u32,
    pub groups: u32,
    pub missed: u32,
}

/// Where the parts of the report begin.
pub fn places_of(report: &Report) -> Places
    requires { missed_at report.now < 2 ^ 32 }
    ensures tests { result.tests ≡ tests_at report.now }
    ensures tree { result.tree ≡ tree_at report.now }
    ensures groups { result.groups ≡ groups_at report.now }
    ensures missed { result.missed ≡ missed_at report.now }
{
    let tests = 13 + class_length(report.class_lines.as_slice());
    let tree = tests + report.test_lines.len() as u32;
    let groups = tree + report.tree.len() as u32;
    let missed = groups + report.groups.len() as u32;
    Places {
        tests,
        tree,
        groups,
        missed,
    }
}
