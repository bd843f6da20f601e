//! C08: whether the last group line is the group of all classes with the report's low. Of one goal nothing
//! is listed, and nothing is to pay.
ghost use Rattle.std.specs.Prelude.{◌≡◌, ◌||◌, not, cond, nat_eq, nat_lt};
ghost use Rattle.seq_theory.specs.Problem.{all_classes, is_end};
ghost use Rattle.seq_inst.specs.Instances.{problem_of};
ghost use Rattle.seq_check.specs.GroupLooks.{is_root};

use seq_cert::GroupLine;
use seq_inst::{Instance, is_leaf, root};

/// Whether the low is 0 where all classes have one goal.
pub fn is_low_of_one(inst: &Instance, low: u64) -> bool
    ensures { result ≡ (not (is_end (problem_of inst.now) (all_classes (problem_of inst.now))) || nat_eq low 0) }
{
    !is_leaf(inst, &root(inst)) || low == 0
}

/// Whether some group is listed, or none where all classes have one goal.
pub fn is_listing(inst: &Instance, count: usize) -> bool
    ensures { result ≡ cond (is_end (problem_of inst.now) (all_classes (problem_of inst.now))) (nat_eq count 0) (nat_lt 0 count) }
{
    if is_leaf(inst, &root(inst)) {
        count == 0
    } else {
        0 < count
    }
}

/// Whether the line has the group of all classes, with this low.
pub fn is_root(inst: &Instance, low: u64, line: &GroupLine) -> bool
    ensures { result ≡ is_root (problem_of inst.now) low line.now }
{
    let all = root(inst);
    is_leaf(inst, &all) || (line.group.is_same(&all) && line.low == low)
}
