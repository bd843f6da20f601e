//! Greedy's tests and costs, each worked out once for each group that its trees meet, as long as there is
//! room to keep them. A group that was met before answers at once, so that a whole search pays for each of
//! these groups once, however many trees they stand in. Without room the answers are the same, and what
//! isn't kept is worked out again.
//!
//! A test is chosen by its sum over the bounds of its parts. Most tests need no sum: each test that splits
//! the group has an estimate that is at most its sum, and a test is passed over where its estimate is above
//! a sum that is known. The test of least estimate is asked first, so that this sum is small from the start.
//! The bounds that were worked out for a sum are remembered for a while, as a search soon asks for them again;
//! of the parts only those by greedy's test get numbers.
ghost use Rattle.std.specs.Prelude.{◌≡◌, ◌⊎◌, ◌<◌, ◌≤◌, true, false, Some, IfOk, IfSome, vec_len};
ghost use Rattle.seq_theory.specs.Problem.{is_end, splits as is_split, weight_of as weight_sum};
ghost use Rattle.seq_theory.specs.Bound.{bound as bound_by, step_sum};
ghost use Rattle.seq_theory.specs.Greedy.{greedy_test as test_of_greedy, greedy_cost as cost_of_greedy, greedy as tree_of_greedy};
ghost use Rattle.seq_huff.specs.Bounds.{greatest_cost};
ghost use Rattle.seq_huff.specs.Orders.{IsOrderFor};
ghost use Rattle.seq_inst.specs.Instances.{problem_of, IsGroupOf};
ghost use Rattle.seq_inst.specs.Members.{members};
ghost use Rattle.seq_inst.specs.Trees.{tree_of};
ghost use Rattle.seq_graph.specs.GreedyChoice.{IsNoLater, IsTestWithSum, evaluated, AreEstimatesFor};
ghost use Rattle.seq_graph.specs.Numbered.{KeepsNumberRoom, KeepsNumbers, AreNumbersFor};

use crate::numbers::Numbers;
use seq_huff::{Estimate, Order};
use seq_inst::{Group, Instance, Strategy, ask_first, is_leaf, parts_of, splits, weight_of};
use std::alloc::{AllocError, Global};

/// Greedy's test of a group, and what greedy costs over the group.
#[derive(Clone, Copy)]
pub(crate) struct Greedy {
    pub(crate) test: u32,
    pub(crate) cost: u64,
}

/// A test and its sum, or its estimate.
#[derive(Clone, Copy)]
struct Chosen {
    test: u32,
    sum: u64,
}

/// The one of less sum; of one sum, the one of the lower test.
fn choose(one: Chosen, other: Chosen) -> Chosen
    ensures either { (result ≡ one) ⊎ (result ≡ other) }
    ensures one { IsNoLater result one }
    ensures other { IsNoLater result other }
{
    if other.sum < one.sum {
        return other;
    }
    if other.sum == one.sum && other.test < one.test {
        return other;
    }
    one
}

/// The one of these that comes first, or the only one.
fn choose_first(earlier: Option<Chosen>, other: Chosen) -> Chosen
    ensures { (earlier ≡ Some result) ⊎ (result ≡ other) }
{
    match earlier {
        Some(earlier) => choose(earlier, other),
        None => other,
    }
}

/// The estimates of the tests that split a group, each at its test, and a splitting test of least
/// estimate.
#[derive(Clone, Copy)]
pub(crate) struct Estimates {
    pub(crate) of_tests: [u64; 256],
    pub(crate) first: u32,
}

/// The estimates of the tests that split the group, which has two goals or more.
pub(crate) fn estimates_of(order: &Order, inst: &Instance, group: &Group) -> Estimates
    requires order { IsOrderFor inst.now order.now }
    requires within { IsGroupOf inst.now group.now }
    requires more { is_end (problem_of inst.now) (members group.now) ≡ false }
    ensures { AreEstimatesFor inst.now group.now result }
{
    let estimate = Estimate::of(order, inst, group);
    let tests = inst.costs.len() as u32;
    let mut of_tests = [u64::MAX; 256];
    let mut least = None;
    for test in 0..tests {
        if splits(inst, group, test) {
            let sum = estimate.least_sum(order, inst, group, test);
            of_tests[test as usize] = sum;
            least = Some(choose_first(least, Chosen { test, sum }));
        }
    }
    match least {
        Some(least) => Estimates {
            of_tests,
            first: least.test,
        },
        None => unreachable!(),
    }
}

impl Numbers {
    /// The sum of a test over the group, of which the weight is known, and the bounds of its parts.
    /// No part gets a number by it.
    fn bound_sum(&mut self, inst: &Instance, group: &Group, test: u32, weight: u64) -> u64
        requires numbers { AreNumbersFor inst.now self.old }
        requires within { IsGroupOf inst.now group.now }
        requires there { test < vec_len inst.now.costs }
        requires weight { weight ≡ weight_sum (problem_of inst.now) (members group.now) }
        ensures numbers { AreNumbersFor inst.now self.new }
        ensures keeps { KeepsNumbers self.old self.new }
        ensures room { KeepsNumberRoom self.old self.new }
        ensures value { result ≡ step_sum (problem_of inst.now) (bound_by (problem_of inst.now)) (members group.now) test }
    {
        let parts = parts_of(inst, group, test);
        let pass = self.bound_within(inst, &parts.pass);
        let fail = self.bound_within(inst, &parts.fail);
        u64::from(inst.costs[test as usize]) * weight + (pass + fail)
    }

    /// The earlier choice or the test, the one of less sum; of one sum, the lower test. The test needs no
    /// sum where its estimate is above the earlier one's.
    fn better(
        &mut self,
        inst: &Instance,
        group: &Group,
        weight: u64,
        earlier: Chosen,
        test: u32,
        estimate: u64,
    ) -> Chosen
        requires numbers { AreNumbersFor inst.now self.old }
        requires within { IsGroupOf inst.now group.now }
        requires weight { weight ≡ weight_sum (problem_of inst.now) (members group.now) }
        requires earlier { IsTestWithSum (problem_of inst.now) (members group.now) earlier }
        requires there { test < vec_len inst.now.costs }
        requires estimate { is_split (problem_of inst.now) (members group.now) test ≡ true → estimate ≤ step_sum (problem_of inst.now) (bound_by (problem_of inst.now)) (members group.now) test }
        ensures numbers { AreNumbersFor inst.now self.new }
        ensures keeps { KeepsNumbers self.old self.new }
        ensures room { KeepsNumberRoom self.old self.new }
        ensures evaluated { IsTestWithSum (problem_of inst.now) (members group.now) result }
        ensures earlier { IsNoLater result earlier }
        ensures test { is_split (problem_of inst.now) (members group.now) test ≡ true → IsNoLater result (evaluated (problem_of inst.now) (members group.now) test) }
    {
        if test == earlier.test {
            return earlier;
        }
        if earlier.sum < estimate {
            return earlier;
        }
        if splits(inst, group, test) {
            let sum = self.bound_sum(inst, group, test, weight);
            return choose(earlier, Chosen { test, sum });
        }
        earlier
    }

    /// The splitting test of least sum over the bounds of its parts, the lowest of these.
    fn test_by(&mut self, inst: &Instance, group: &Group, weight: u64, estimates: &Estimates) -> u32
        requires numbers { AreNumbersFor inst.now self.old }
        requires within { IsGroupOf inst.now group.now }
        requires weight { weight ≡ weight_sum (problem_of inst.now) (members group.now) }
        requires more { is_end (problem_of inst.now) (members group.now) ≡ false }
        requires estimates { AreEstimatesFor inst.now group.now estimates.now }
        ensures numbers { AreNumbersFor inst.now self.new }
        ensures keeps { KeepsNumbers self.old self.new }
        ensures room { KeepsNumberRoom self.old self.new }
        ensures test { result ≡ test_of_greedy (problem_of inst.now) (members group.now) }
    {
        let sum = self.bound_sum(inst, group, estimates.first, weight);
        let mut chosen = Chosen {
            test: estimates.first,
            sum,
        };
        let tests = inst.costs.len() as u32;
        for test in 0..tests {
            let estimate = estimates.of_tests[test as usize];
            chosen = self.better(inst, group, weight, chosen, test, estimate);
        }
        chosen.test
    }

    /// The same test; the estimates are worked out where they weren't before.
    fn greedy_test(
        &mut self,
        inst: &Instance,
        group: &Group,
        weight: u64,
        estimates: Option<&Estimates>,
    ) -> u32
        requires numbers { AreNumbersFor inst.now self.old }
        requires within { IsGroupOf inst.now group.now }
        requires weight { weight ≡ weight_sum (problem_of inst.now) (members group.now) }
        requires more { is_end (problem_of inst.now) (members group.now) ≡ false }
        requires estimates { IfSome estimates (λ e. AreEstimatesFor inst.now group.now e.now) }
        ensures numbers { AreNumbersFor inst.now self.new }
        ensures keeps { KeepsNumbers self.old self.new }
        ensures room { KeepsNumberRoom self.old self.new }
        ensures test { result ≡ test_of_greedy (problem_of inst.now) (members group.now) }
    {
        match estimates {
            Some(estimates) => self.test_by(inst, group, weight, estimates),
            None => {
                let estimates = self.estimates(inst, group);
                self.test_by(inst, group, weight, &estimates)
            }
        }
    }

    /// What greedy costs over the group. It is worked out once for each group that greedy's trees meet, as
    /// long as there is room for numbers; it takes no memory.
    pub fn greedy_of(&mut self, inst: &Instance, group: &Group) -> u64
        requires numbers { AreNumbersFor inst.now self.old }
        requires within { IsGroupOf inst.now group.now }
        ensures numbers { AreNumbersFor inst.now self.new }
        ensures keeps { KeepsNumbers self.old self.new }
        ensures room { KeepsNumberRoom self.old self.new }
        ensures value { result ≡ cost_of_greedy (problem_of inst.now) (members group.now) }
        ensures fits { result ≤ greatest_cost }
    {
        self.greedy_from(inst, group, None)
    }

    /// The same cost, where the estimates of the group's tests may have been worked out already.
    pub(crate) fn greedy_from(
        &mut self,
        inst: &Instance,
        group: &Group,
        estimates: Option<&Estimates>,
    ) -> u64
        requires numbers { AreNumbersFor inst.now self.old }
        requires within { IsGroupOf inst.now group.now }
        requires estimates { IfSome estimates (λ e. AreEstimatesFor inst.now group.now e.now) }
        ensures numbers { AreNumbersFor inst.now self.new }
        ensures keeps { KeepsNumbers self.old self.new }
        ensures room { KeepsNumberRoom self.old self.new }
        ensures value { result ≡ cost_of_greedy (problem_of inst.now) (members group.now) }
        ensures fits { result ≤ greatest_cost }
    {
        if is_leaf(inst, group) {
            return 0;
        }
        if let Some(known) = self.kept_greedy(group) {
            return known.cost;
        }
        let weight = weight_of(inst, group);
        let test = self.greedy_test(inst, group, weight, estimates);
        let parts = parts_of(inst, group, test);
        let pass = self.greedy_from(inst, &parts.pass, None);
        let fail = self.greedy_from(inst, &parts.fail, None);
        let cost = u64::from(inst.costs[test as usize]) * weight + (pass + fail);
        self.keep_greedy(inst, group, Greedy { test, cost });
        cost
    }

    /// Greedy's test of the group, which has two goals or more: the kept one, or chosen afresh.
    fn greedy_choice(&mut self, inst: &Instance, group: &Group) -> u32
        requires numbers { AreNumbersFor inst.now self.old }
        requires within { IsGroupOf inst.now group.now }
        requires more { is_end (problem_of inst.now) (members group.now) ≡ false }
        ensures numbers { AreNumbersFor inst.now self.new }
        ensures keeps { KeepsNumbers self.old self.new }
        ensures room { KeepsNumberRoom self.old self.new }
        ensures test { result ≡ test_of_greedy (problem_of inst.now) (members group.now) }
    {
        if let Some(known) = self.kept_greedy(group) {
            return known.test;
        }
        let weight = weight_of(inst, group);
        self.greedy_test(inst, group, weight, None)
    }

    /// The greedy strategy for the group, by the tests that are kept. Where one isn't kept it is chosen
    /// again; after `greedy_of` each is, unless there was no room.
    pub fn greedy_tree(
        &mut self,
        alloc: Global,
        inst: &Instance,
        group: &Group,
    ) -> Result<Strategy, AllocError>
        requires numbers { AreNumbersFor inst.now self.old }
        requires within { IsGroupOf inst.now group.now }
        ensures numbers { AreNumbersFor inst.now self.new }
        ensures keeps { KeepsNumbers self.old self.new }
        ensures room { KeepsNumberRoom self.old self.new }
        ensures value { IfOk result (λ s. tree_of s ≡ tree_of_greedy (problem_of inst.now) (members group.now)) }
    {
        if is_leaf(inst, group) {
            return Ok(Strategy::Leaf);
        }
        let test = self.greedy_choice(inst, group);
        let parts = parts_of(inst, group, test);
        let pass = self.greedy_tree(alloc, inst, &parts.pass)?;
        let fail = self.greedy_tree(alloc, inst, &parts.fail)?;
        ask_first(alloc, test, pass, fail)
    }
}
