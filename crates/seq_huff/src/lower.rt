//! The lower bound of a group. Huffman's cost says how many tests, weighted, must be asked at least;
//! written as a whole number of times the group's weight and a rest, it is paid with the cheapest
//! splitting tests, each at most once on a class's way.
ghost use Rattle.std.specs.Prelude.{◌≡◌, ◌^◌, ◌<◌, ◌≤◌, length, take, map, sum};
ghost use Rattle.seq_theory.specs.Problem.{splitting};
ghost use Rattle.seq_theory.specs.Bound.{sum_first, next_after, bound as bound_of};
ghost use Rattle.seq_inst.specs.Members.{members};
ghost use Rattle.seq_inst.specs.Instances.{problem_of, IsGroupOf};
ghost use Rattle.seq_huff.specs.Bounds.{IsAtMostLeast, greatest_cost};

use crate::scratch::Scratch;
use crate::sorting::sort_upward;
use crate::weights::huffman;
use seq_inst::{Group, Instance, is_leaf, splits, weight_of};
use seq_theory::bounds_hold;

/// Writes the costs of the tests that split the group, and says how many there are.
fn write_costs(inst: &Instance, group: &Group, out: &mut [u64]) -> usize
    requires { 256 ≤ length out.old }
    ensures count { result ≡ length (splitting (problem_of inst.now) (members group.now)) }
    ensures costs { take result out.new ≡ map (problem_of inst.now).cost (splitting (problem_of inst.now) (members group.now)) }
{
    let mut count = 0;
    let tests = inst.costs.len() as u32;
    for test in 0..tests {
        if splits(inst, group, test) {
            out[count] = u64::from(inst.costs[test as usize]);
            count += 1;
        }
    }
    count
}

/// The sum of the first so many numbers, or of all where there are fewer.
fn sum_of_first(numbers: &[u64], count: u64) -> u64
    requires { sum numbers.now < 2 ^ 64 }
    ensures { result ≡ sum_first count numbers.now }
{
    let end = numbers.len().min(count as usize);
    let mut total = 0;
    for place in 0..end {
        total += numbers[place];
    }
    total
}

/// The number after so many, or 0.
fn number_after(numbers: &[u64], count: u64) -> u64
    ensures { result ≡ next_after count numbers.now }
{
    numbers.get(count as usize).copied().unwrap_or(0)
}

/// The lower bound of the group's least cost; 0 for one goal.
pub fn bound(scratch: &mut Scratch, inst: &Instance, group: &Group) -> u64
    requires { IsGroupOf inst.now group.now }
    ensures value { result ≡ bound_of (problem_of inst.now) (members group.now) }
    ensures low { IsAtMostLeast (problem_of inst.now) (members group.now) result }
    ensures fits { result ≤ greatest_cost }
{
    bounds_hold();
    if is_leaf(inst, group) {
        return 0;
    }
    let huffman_cost = huffman(scratch, inst, group);
    let weight = weight_of(inst, group);
    let count = write_costs(inst, group, &mut scratch.costs);
    let costs = &mut scratch.costs[..count];
    sort_upward(costs);
    let whole = huffman_cost / weight;
    let rest = huffman_cost % weight;
    weight * sum_of_first(costs, whole) + rest * number_after(costs, whole)
}
