//! What groups count that were met for the first time: none of them has a row.
ghost use Rattle.std.specs.Prelude.{◌≡◌, ◌<◌, ◌≤◌, List, ℕ, length, map, ◌++◌, drop, vec_capacity};
ghost use Rattle.seq_inst.specs.Instances.{problem_of};
ghost use Rattle.seq_graph.specs.Numbered.{HasNumber, AreNumbersFor};
ghost use Rattle.seq_graph.specs.Counts.{new_count};

use crate::graph::Count;
use crate::numbers::Numbers;
use seq_inst::{Instance, is_leaf};

/// What the group of a number counts that has no row.
fn count_without_row(inst: &Instance, numbers: &Numbers, number: u32) -> Count
    requires numbers { AreNumbersFor inst.now numbers.now }
    requires there { number < length numbers.now.groups }
    ensures { (group : List ℕ) → HasNumber numbers.now group number → result ≡ new_count (problem_of inst.now) group }
{
    let one_goal = is_leaf(inst, &numbers.group_at(number));
    Count {
        low: numbers.bound_at(number),
        up: if one_goal { 0 } else { u64::MAX },
        place: None,
    }
}

/// Counts for the groups that have a number, but no count yet. There is room for them.
pub(crate) fn count_new(inst: &Instance, numbers: &Numbers, counts: &mut Vec<Count>)
    requires numbers { AreNumbersFor inst.now numbers.now }
    requires fewer { length counts.old.items ≤ length numbers.now.groups }
    requires room { length numbers.now.groups ≤ vec_capacity counts.old }
    ensures counts { counts.new.items ≡ counts.old.items ++ map (new_count (problem_of inst.now)) (drop (length counts.old.items) numbers.now.groups) }
    ensures capacity { vec_capacity counts.old ≤ vec_capacity counts.new }
{
    let many = numbers.len();
    for number in counts.len() as u32..many {
        let _ = counts.push(count_without_row(inst, numbers, number));
    }
}
