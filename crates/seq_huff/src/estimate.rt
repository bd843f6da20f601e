//! A number that is at most a test's sum over the bounds of the parts that it makes of a group, and is far
//! cheaper than the sum. A search evaluates the tests of a group in the order of these numbers, until the
//! least sum is certain; the others can wait.
//!
//! The bound of a part is made from Huffman's cost of its weights and the costs of the tests that split
//! it. Here stand in their place a number that is at most Huffman's cost, from the part's weight and the
//! potentials of its classes, and the cheapest tests that split the group, without the one that is asked:
//! those that split a part are among them. No clause says how near the number comes to the sum: 0 would be
//! right too, and every test then be evaluated.
ghost use Rattle.std.specs.Prelude.{◌≡◌, ℕ, ◌*◌, ◌<◌, ◌≤◌, true, vec_len, slice_index};
ghost use Rattle.seq_theory.specs.Problem.{splits as is_split};
ghost use Rattle.seq_theory.specs.Bound.{bound as bound_of, step_sum};
ghost use Rattle.seq_inst.specs.Members.{members};
ghost use Rattle.seq_inst.specs.Instances.{problem_of, IsGroupOf};
ghost use Rattle.seq_huff.specs.Orders.{IsOrderFor};
ghost use Rattle.seq_huff.specs.Estimates.{sum_without as sum_of_others, bound_without, IsEstimateFor};

use crate::mass::{Mass, least_huffman, mass_of, masses_of};
use crate::order::Order;
use crate::sums::first_sums;
use seq_inst::{Group, Instance, parts_of};

/// What the estimates of a group's tests share: the group's mass, and by number the sum of so many of the
/// cheapest tests that split it.
#[derive(Drop)]
pub struct Estimate {
    pub(crate) mass: Mass,
    pub(crate) sums: [u64; 258],
}

impl Estimate {
    /// What the estimates of the group's tests share. The order is that of the instance.
    pub fn of(order: &Order, inst: &Instance, group: &Group) -> Estimate
        requires order { IsOrderFor inst.now order.now }
        requires within { IsGroupOf inst.now group.now }
        ensures { IsEstimateFor inst.now group.now result }
    {
        Estimate {
            mass: mass_of(order, inst, group),
            sums: first_sums(order, inst, group),
        }
    }

    /// A number that is at most the sum of the test over the bounds of its parts. The group is that of
    /// `of`, and the test splits it. It counts the classes of one part, walks over those of the smaller
    /// part, and takes a few dozen steps more.
    pub fn least_sum(&self, order: &Order, inst: &Instance, group: &Group, test: u32) -> u64
        requires order { IsOrderFor inst.now order.now }
        requires within { IsGroupOf inst.now group.now }
        requires of { IsEstimateFor inst.now group.now self.now }
        requires there { test < vec_len inst.now.costs }
        requires splits { is_split (problem_of inst.now) (members group.now) test ≡ true }
        ensures { result ≤ step_sum (problem_of inst.now) (bound_of (problem_of inst.now)) (members group.now) test }
    {
        let cost = u64::from(inst.costs[test as usize]);
        let parts = parts_of(inst, group, test);
        let masses = masses_of(order, inst, self.mass, &parts.pass, &parts.fail);
        let pass_huffman = least_huffman(inst, &parts.pass, masses.pass);
        let fail_huffman = least_huffman(inst, &parts.fail, masses.fail);
        let pass_least = self.least_bound(cost, masses.pass.weight, pass_huffman);
        let fail_least = self.least_bound(cost, masses.fail.weight, fail_huffman);
        cost * self.mass.weight + (pass_least + fail_least)
    }

    /// At most the sum of so many costs, without that of the test that is asked. Where this one is among
    /// so many and one more, the others are those; else it is none of so many.
    fn sum_without(&self, cost: u64, count: usize) -> u64
        requires { count ≤ 256 }
        ensures { result ≡ sum_of_others self.now.sums cost count }
    {
        self.sums[count].max(self.sums[count + 1].saturating_sub(cost))
    }

    /// At most the bound of a part of this weight, where Huffman's cost of it is at least this, and the
    /// test that is asked costs so much.
    fn least_bound(&self, cost: u64, weight: u64, huffman: u64) -> u64
        requires sums { (count : ℕ) → count < 258 → slice_index self.now.sums count ≤ 256000000 }
        requires some { 1 ≤ weight }
        requires light { weight ≤ 4097000000 }
        requires few { huffman ≤ weight * 255 }
        ensures { result ≡ bound_without self.now.sums cost weight huffman }
    {
        let whole = (huffman / weight) as usize;
        let rest = huffman % weight;
        let first = self.sum_without(cost, whole);
        let more = self.sum_without(cost, whole + 1);
        (weight - rest) * first + rest * more
    }
}
