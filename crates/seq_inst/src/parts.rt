//! The group of all classes, and how tests divide groups. Everything above a group's words asks these
//! calls: which part passes a test, what both parts are, whether both have a class, and whether a group is
//! an end. Each looks at all words of a group at once, but for the last.
ghost use Rattle.std.specs.Prelude.{◌≡◌, ◌<◌, true, false, length, vec_len};
ghost use Rattle.seq_theory.specs.Problem.{all_classes, is_end, splits as is_split};
ghost use Rattle.seq_theory.specs.Graph.{part as part_by};
ghost use Rattle.seq_inst.specs.Members.{members};
ghost use Rattle.seq_inst.specs.Instances.{problem_of, IsGroupOf};
ghost use Rattle.seq_inst.specs.Answers.{is_pass};

use crate::group::{Group, common, lacks, shares, without};
use crate::instance::Instance;

/// What a test answers.
#[derive(Clone, Copy, Debug, PartialEq, Eq)]
pub enum Answer {
    Pass,
    Fail,
}

/// The two parts into which a test divides a group.
#[derive(Clone, Copy, Debug, PartialEq, Eq)]
pub struct Parts {
    /// The classes for which the test passes.
    pub pass: Group,
    /// The classes for which it fails.
    pub fail: Group,
}

/// The group of all classes.
pub fn root(inst: &Instance) -> Group
    ensures classes { members result ≡ all_classes (problem_of inst.now) }
    ensures within { IsGroupOf inst.now result }
{
    let mut words = [0; 8];
    let classes = inst.weights.len() as u32;
    for class in 0..classes {
        let place = (class / 64) as usize;
        words[place] |= 1 << (class % 64);
    }
    Group(words)
}

/// The classes of the group for which the test has this answer.
pub fn part(inst: &Instance, group: &Group, test: u32, answer: Answer) -> Group
    requires { test < vec_len inst.now.costs }
    ensures classes { members result ≡ part_by (problem_of inst.now) test (is_pass answer) (members group.now) }
    ensures within { IsGroupOf inst.now group.now → IsGroupOf inst.now result }
    ensures smaller { is_split (problem_of inst.now) (members group.now) test ≡ true → length (members result) < length (members group.now) }
{
    let passes = inst.passes[test as usize];
    match answer {
        Answer::Pass => common(group, &passes),
        Answer::Fail => without(group, &passes),
    }
}

/// Both parts of the group, in one pass over its words.
pub fn parts_of(inst: &Instance, group: &Group, test: u32) -> Parts
    requires { test < vec_len inst.now.costs }
    ensures pass { members result.pass ≡ part_by (problem_of inst.now) test true (members group.now) }
    ensures fail { members result.fail ≡ part_by (problem_of inst.now) test false (members group.now) }
    ensures pass_within { IsGroupOf inst.now group.now → IsGroupOf inst.now result.pass }
    ensures fail_within { IsGroupOf inst.now group.now → IsGroupOf inst.now result.fail }
    ensures pass_smaller { is_split (problem_of inst.now) (members group.now) test ≡ true → length (members result.pass) < length (members group.now) }
    ensures fail_smaller { is_split (problem_of inst.now) (members group.now) test ≡ true → length (members result.fail) < length (members group.now) }
{
    let passes = &inst.passes[test as usize];
    Parts {
        pass: common(group, passes),
        fail: without(group, passes),
    }
}

/// Whether the test passes for some class of the group and fails for some.
pub fn splits(inst: &Instance, group: &Group, test: u32) -> bool
    requires { test < vec_len inst.now.costs }
    ensures { result ≡ is_split (problem_of inst.now) (members group.now) test }
{
    let passes = &inst.passes[test as usize];
    shares(group, passes) && lacks(group, passes)
}

/// Whether the group is an end: all its classes have one goal, so nothing is left to tell apart. That is
/// so where there is no second class; most groups show one in their first word, so no class is counted.
/// Each crate above tests this by this call alone.
pub fn is_leaf(inst: &Instance, group: &Group) -> bool
    ensures { result ≡ is_end (problem_of inst.now) (members group.now) }
{
    let _ = inst;
    match group.first_from(0) {
        Some(first) => group.first_from(first + 1).is_none(),
        None => true,
    }
}
