//! The lower bound of a group with the weights and costs in order beforehand. It is the bound of
//! `bound`, and takes no sort: the weights are read out upwards, and the tests are asked from the
//! cheapest on. Only the first splitting ones count, as many as Huffman's cost has whole weights of the
//! group and one more, so the walk over the tests ends there.
ghost use Rattle.std.specs.Prelude.{◌≡◌, ◌^◌, ◌<◌, ◌≤◌, false, sum};
ghost use Rattle.seq_theory.specs.Problem.{is_end};
ghost use Rattle.seq_theory.specs.Bound.{sum_first, next_after, splitting_costs, bound as bound_of};
ghost use Rattle.seq_inst.specs.Members.{members};
ghost use Rattle.seq_inst.specs.Instances.{problem_of, IsGroupOf};
ghost use Rattle.seq_huff.specs.Bounds.{IsAtMostLeast, greatest_cost};
ghost use Rattle.seq_huff.specs.Orders.{IsOrderFor};

use crate::merging::merge_sum;
use crate::order::Order;
use crate::ranked::write_upward;
use crate::scratch::Scratch;
use seq_inst::{Group, Instance, is_leaf, splits};
use seq_theory::bounds_hold;

/// The sum of the first so many costs of splitting tests, and the cost after these, or 0.
#[derive(Clone, Copy)]
struct FirstCosts {
    sum: u64,
    next: u64,
}

/// The first so many costs of the tests that split the group, from the cheapest on.
fn first_costs(order: &Order, inst: &Instance, group: &Group, count: u64) -> FirstCosts
    requires order { IsOrderFor inst.now order.now }
    requires within { IsGroupOf inst.now group.now }
    requires more { is_end (problem_of inst.now) (members group.now) ≡ false }
    ensures sum { result.sum ≡ sum_first count (splitting_costs (problem_of inst.now) (members group.now)) }
    ensures next { result.next ≡ next_after count (splitting_costs (problem_of inst.now) (members group.now)) }
{
    let mut sum = 0;
    let mut left = count;
    for place in 0..order.tests.len() {
        let test = order.tests[place];
        if splits(inst, group, test) {
            let cost = u64::from(inst.costs[test as usize]);
            if left == 0 {
                return FirstCosts { sum, next: cost };
            }
            sum += cost;
            left -= 1;
        }
    }
    FirstCosts { sum, next: 0 }
}

/// The sum of the numbers.
fn sum_of(numbers: &[u64]) -> u64
    requires { sum numbers.now < 2 ^ 64 }
    ensures { result ≡ sum numbers.now }
{
    numbers.iter().sum()
}

/// The lower bound of the group's least cost, as `bound` gives it; 0 for one goal. The order is that of
/// the instance.
pub fn ordered_bound(scratch: &mut Scratch, order: &Order, inst: &Instance, group: &Group) -> u64
    requires order { IsOrderFor inst.now order.now }
    requires within { IsGroupOf inst.now group.now }
    ensures value { result ≡ bound_of (problem_of inst.now) (members group.now) }
    ensures low { IsAtMostLeast (problem_of inst.now) (members group.now) result }
    ensures fits { result ≤ greatest_cost }
{
    bounds_hold();
    if is_leaf(inst, group) {
        return 0;
    }
    let count = write_upward(order, inst, group, &mut scratch.weights);
    let weights = &mut scratch.weights[..count];
    let weight = sum_of(weights);
    let huffman_cost = merge_sum(weights);
    let whole = huffman_cost / weight;
    let rest = huffman_cost % weight;
    let costs = first_costs(order, inst, group, whole);
    weight * costs.sum + rest * costs.next
}
