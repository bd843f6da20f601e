//! The sums of the first so many costs of a group's splitting tests, from the cheapest on. They are made
//! once for a group; what any number of its cheapest tests costs together is then one step.
ghost use Rattle.std.specs.Prelude.{◌≡◌, ℕ, ◌+◌, ◌<◌, ◌≤◌, length, slice_index};
ghost use Rattle.seq_theory.specs.Bound.{splitting_costs};
ghost use Rattle.seq_inst.specs.Members.{members};
ghost use Rattle.seq_inst.specs.Instances.{problem_of};
ghost use Rattle.seq_huff.specs.Orders.{IsOrderFor};
ghost use Rattle.seq_huff.specs.Estimates.{AreSums};

use crate::order::Order;
use seq_inst::{Group, Instance, splits};

/// Writes the sums of the first so many costs, from none to all of them, and says how many costs there
/// are.
fn write_sums(order: &Order, inst: &Instance, group: &Group, out: &mut [u64]) -> usize
    requires order { IsOrderFor inst.now order.now }
    requires room { 258 ≤ length out.old }
    ensures sums { AreSums (splitting_costs (problem_of inst.now) (members group.now)) out.new (result + 1) }
    ensures all { length (splitting_costs (problem_of inst.now) (members group.now)) ≤ result }
    ensures few { result ≤ 256 }
{
    out[0] = 0;
    let mut count = 0;
    let mut total = 0;
    for place in 0..order.tests.len() {
        let test = order.tests[place];
        if splits(inst, group, test) {
            total += u64::from(inst.costs[test as usize]);
            count += 1;
            out[count] = total;
        }
    }
    count
}

/// Writes the number from a place on.
fn write_from(out: &mut [u64], start: usize, number: u64)
    ensures before { (place : ℕ) → place < start → slice_index out.new place ≡ slice_index out.old place }
    ensures after { (place : ℕ) → start ≤ place → place < length out.old → slice_index out.new place ≡ number }
{
    for place in start..out.len() {
        out[place] = number;
    }
}

/// The sums of the first so many costs of the tests that split the group, or of all where there are fewer.
pub(crate) fn first_sums(order: &Order, inst: &Instance, group: &Group) -> [u64; 258]
    requires { IsOrderFor inst.now order.now }
    ensures { AreSums (splitting_costs (problem_of inst.now) (members group.now)) result 258 }
{
    let mut sums = [0; 258];
    let count = write_sums(order, inst, group, &mut sums);
    let total = sums[count];
    write_from(&mut sums, count + 1, total);
    sums
}
