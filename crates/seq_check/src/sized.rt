//! C06: whether a group line has the size of its group, of two goals or more and only of classes that are
//! there, and comes after the line before it.
ghost use Rattle.std.specs.Prelude.{◌≡◌, nat_lt};
ghost use Rattle.std.specs.List.{list_all};
ghost use Rattle.seq_inst.specs.Members.{members};
ghost use Rattle.seq_inst.specs.Instances.{problem_of};
ghost use Rattle.seq_check.specs.GroupLooks.{is_sized, comes_after};

use seq_cert::{GroupLine, comes_before};
use seq_inst::{Group, Instance, count_of, is_leaf};

/// Whether all classes of the group are there.
pub fn has_only_classes(inst: &Instance, group: &Group) -> bool
    ensures { result ≡ list_all (λ c. nat_lt c (problem_of inst.now).classes) (members group.now) }
{
    let classes = inst.weights.len() as u32;
    match group.first_from(classes) {
        None => true,
        Some(_) => false,
    }
}

/// Whether the group has so many classes, two goals or more, and only classes that are there.
pub fn is_sized(inst: &Instance, size: u32, group: &Group) -> bool
    ensures { result ≡ is_sized (problem_of inst.now) size group.now }
{
    size == count_of(group) && !is_leaf(inst, group) && has_only_classes(inst, group)
}

/// Whether the line comes after the one before it, if there is one.
pub fn does_follow(before: Option<GroupLine>, line: &GroupLine) -> bool
    ensures { result ≡ comes_after before line.now }
{
    match before {
        Some(before) => comes_before(&before, line),
        None => true,
    }
}
