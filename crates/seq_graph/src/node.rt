//! What an engine keeps of a group. Each number is worked out once, when it is first asked for: the bounds of
//! the parts and the splitting tests take most of the time of a search, and a search asks for them again and
//! again. What is kept is what working it out afresh would give.
//!
//! At first no test is listed, and greedy's cost isn't asked for: a row of which others found the bounds may need
//! neither. Once the row is capped by greedy's cost, which its up keeps from then on, its tests are listed.
//!
//! The sum of a test takes the bounds of both of its parts, and a group has far more splitting tests than
//! ever matter. So a test waits at first, with a number that is at most its sum and that costs no bound.
//! It is evaluated where the least sum is not certain without it. A test that waits with more than
//! greedy costs is not kept at all: no tree that is worth looking at begins with it.
//!
//! The lists are handed in by the caller, and hold as many tests as there is room for. Of the tests that find
//! none those of greatest numbers are left out, and the most is kept up to which all tests are listed. A test
//! that finds no room when it is evaluated waits on. Then the test of least sum is looked for the plain way.
ghost use Rattle.std.specs.Prelude.{◌≡◌, ◌⊎◌, ◌+◌, ◌-◌, ◌<◌, ◌++◌, ◌∷◌, [], true, false, min, length, All, IfSome, vec_len};
ghost use Rattle.seq_theory.specs.Problem.{IsIn, splits as is_split, splitting};
ghost use Rattle.seq_theory.specs.Bound.{bound as bound_by, step_sum};
ghost use Rattle.seq_inst.specs.Instances.{problem_of, IsGroupOf};
ghost use Rattle.seq_inst.specs.Members.{members};
ghost use Rattle.seq_graph.specs.GreedyChoice.{AreEstimatesFor};
ghost use Rattle.seq_graph.specs.Numbered.{Numbered, capacity, KeepsNumbers, KeepsNumberRoom, AreNumbersFor};
ghost use Rattle.seq_graph.specs.KeptOf.{HasParts, AreTestsOf, IsKeptOf, EvaluatesAt, KeepsTests, WaitingSoFar};

use crate::greedy::Estimates;
use crate::numbers::Numbers;
use seq_inst::{Group, Instance, parts_of, splits, weight_of};
use std::alloc::Global;

/// A test that splits a group, with the numbers of the part that passes it and the part that fails it.
#[derive(Clone, Copy, Debug, PartialEq, Eq)]
pub struct Split {
    pub test: u32,
    pub pass: u32,
    pub fail: u32,
}

/// A test that splits a group and was not evaluated yet, with a number that is at most its sum.
#[derive(Clone, Copy, Debug, PartialEq, Eq)]
pub struct Waiting {
    pub test: u32,
    pub least: u64,
}

/// A group's number, its weight, its lower bound, and the tests that split it: those that were evaluated, in
/// the order in which they were, and those that wait, in no order. Tests of which the sum is above the most may
/// be missing.
#[derive(Drop)]
pub struct Node {
    pub number: u32,
    pub weight: u64,
    pub bound: u64,
    /// Whether the row's up is at most what greedy costs over the group.
    pub capped: bool,
    /// `u64::MAX` where the lists had room for all tests, and 0 where no test is listed.
    pub most: u64,
    pub splits: Vec<Split>,
    pub waiting: Vec<Waiting>,
}

/// Lists for the tests of a group.
#[derive(Drop)]
pub struct Lists {
    pub splits: Vec<Split>,
    pub waiting: Vec<Waiting>,
}

/// Whether lists take more memory when they are full.
#[derive(Clone, Copy, Debug, PartialEq, Eq)]
pub enum Growth {
    /// They do, while there is any.
    Free,
    /// They hold what they have room for.
    Fixed,
}

impl Growth {
    /// Whether a list of this length and capacity takes one more.
    fn lets(self, len: usize, capacity: usize) -> bool {
        match self {
            Growth::Free => true,
            Growth::Fixed => len < capacity,
        }
    }
}

/// The test with the numbers of the parts that it makes of the group, while there is room for numbers.
fn split_by(numbers: &mut Numbers, inst: &Instance, group: &Group, test: u32) -> Option<Split>
    requires numbers { AreNumbersFor inst.now numbers.old }
    requires within { IsGroupOf inst.now group.now }
    requires there { test < vec_len inst.now.costs }
    ensures numbers { AreNumbersFor inst.now numbers.new }
    ensures keeps { KeepsNumbers numbers.old numbers.new }
    ensures test { IfSome result (λ s. s.test ≡ test) }
    ensures parts { IfSome result (HasParts (problem_of inst.now) numbers.new (members group.now)) }
    ensures room { KeepsNumberRoom numbers.old numbers.new }
{
    let parts = parts_of(inst, group, test);
    let pass = numbers.number_within(inst, &parts.pass)?;
    let fail = numbers.number_within(inst, &parts.fail)?;
    Some(Split { test, pass, fail })
}

/// A number above which tests are left out, so that about as many remain as there is room for: those that are
/// more likely to have the least sum. Half of the steps between the least and the cap are tried.
fn cut_for(estimates: &Estimates, tests: u32, cap: u64, growth: Growth, room: usize) -> u64 {
    if growth == Growth::Free || tests as usize <= room {
        return u64::MAX;
    }
    let mut cut = cap;
    for _ in 0..16 {
        let mut many = 0usize;
        for estimate in estimates.of_tests {
            if estimate <= cut {
                many = many.saturating_add(1);
            }
        }
        if many <= room {
            return cut;
        }
        cut -= cut / 16;
    }
    cut
}

/// What is listed: tests that may cost no more than the cap, and of these those up to the cut.
#[derive(Clone, Copy)]
struct Cuts {
    cap: u64,
    cut: u64,
    growth: Growth,
}

/// Lists a test with its number, where this is not above the cut and there is room. The answer is the most up
/// to which no test is left out by it.
fn list_one(waiting: &mut Vec<Waiting>, test: u32, least: u64, cuts: Cuts) -> u64
    ensures { ((waiting.new.items ≡ waiting.old.items ++ record { test = test; least = least } ∷ []) × (result ≡ 18446744073709551615)) ⊎ ((waiting.new.items ≡ waiting.old.items) × (result ≡ least - 1)) }
{
    let room = least <= cuts.cut && cuts.growth.lets(waiting.len(), waiting.capacity());
    if room && waiting.push(Waiting { test, least }).is_ok() {
        return u64::MAX;
    }
    least.saturating_sub(1)
}

/// Lists a test that comes next and splits the group, if it may cost no more than the cap.
fn list_split(
    inst: &Instance,
    group: &Group,
    estimates: &Estimates,
    cuts: Cuts,
    test: u32,
    most: u64,
    waiting: &mut Vec<Waiting>,
) -> u64
    requires within { IsGroupOf inst.now group.now }
    requires estimates { AreEstimatesFor inst.now group.now estimates.now }
    requires there { test < length inst.now.costs.items }
    requires split { is_split (problem_of inst.now) (members group.now) test ≡ true }
    requires so_far { WaitingSoFar (problem_of inst.now) (members group.now) (step_sum (problem_of inst.now) (bound_by (problem_of inst.now)) (members group.now)) (min cuts.cap most) test waiting.old.items }
    ensures { WaitingSoFar (problem_of inst.now) (members group.now) (step_sum (problem_of inst.now) (bound_by (problem_of inst.now)) (members group.now)) (min cuts.cap result) (test + 1) waiting.new.items }
{
    let _ = inst;
    let _ = group;
    let least = estimates.of_tests[test as usize];
    if least <= cuts.cap {
        return most.min(list_one(waiting, test, least, cuts));
    }
    most
}

/// Lists a test that comes next, if it splits the group and may cost no more than the cap.
fn list_test(
    inst: &Instance,
    group: &Group,
    estimates: &Estimates,
    cuts: Cuts,
    test: u32,
    most: u64,
    waiting: &mut Vec<Waiting>,
) -> u64
    requires within { IsGroupOf inst.now group.now }
    requires estimates { AreEstimatesFor inst.now group.now estimates.now }
    requires there { test < length inst.now.costs.items }
    requires so_far { WaitingSoFar (problem_of inst.now) (members group.now) (step_sum (problem_of inst.now) (bound_by (problem_of inst.now)) (members group.now)) (min cuts.cap most) test waiting.old.items }
    ensures { WaitingSoFar (problem_of inst.now) (members group.now) (step_sum (problem_of inst.now) (bound_by (problem_of inst.now)) (members group.now)) (min cuts.cap result) (test + 1) waiting.new.items }
{
    if splits(inst, group, test) {
        return list_split(inst, group, estimates, cuts, test, most, waiting);
    }
    most
}

/// Fills the list, which is empty, with the tests that split the group, each with a number that is at most
/// its sum, but for those of which this number is above the cap, and for those that find no room. The answer
/// is the most up to which the list has all tests.
fn list_waiting(
    inst: &Instance,
    group: &Group,
    estimates: &Estimates,
    cap: u64,
    growth: Growth,
    waiting: &mut Vec<Waiting>,
) -> u64
    requires within { IsGroupOf inst.now group.now }
    requires estimates { AreEstimatesFor inst.now group.now estimates.now }
    requires empty { waiting.old.items ≡ [] }
    ensures { (v : Numbered) → AreTestsOf (problem_of inst.now) v (members group.now) (step_sum (problem_of inst.now) (bound_by (problem_of inst.now)) (members group.now)) (min cap result) [] waiting.new.items }
{
    let tests = inst.costs.len() as u32;
    let cut = cut_for(estimates, tests, cap, growth, waiting.capacity());
    let cuts = Cuts { cap, cut, growth };
    let mut most = u64::MAX;
    for test in 0..tests {
        most = list_test(inst, group, estimates, cuts, test, most, waiting);
    }
    most
}

impl Node {
    /// What is kept of the group at first: no test is listed. The group gets a number where it has none. It takes
    /// no memory.
    pub fn of(numbers: &mut Numbers, inst: &Instance, group: &Group, alloc: Global) -> Node
        requires numbers { AreNumbersFor inst.now numbers.old }
        requires within { IsGroupOf inst.now group.now }
        requires held { 0 < numbers.old.held }
        ensures numbers { AreNumbersFor inst.now numbers.new }
        ensures keeps { KeepsNumbers numbers.old numbers.new }
        ensures kept { IsKeptOf (problem_of inst.now) numbers.new (members group.now) result }
        ensures capacity { capacity numbers.new ≡ capacity numbers.old }
        ensures one { numbers.new.held + 1 ≡ numbers.old.held }
    {
        let number = numbers.number_of(inst, group);
        let bound = numbers.bound_at(number);
        let weight = weight_of(inst, group);
        Node {
            number,
            weight,
            bound,
            capped: false,
            most: 0,
            splits: Vec::new(alloc),
            waiting: Vec::new(alloc),
        }
    }

    /// Lists the tests of the group: no test is evaluated yet, and those that may cost no more than the cap wait.
    /// The lists are emptied first. It takes no memory, unless lists may grow.
    pub(crate) fn list(
        &mut self,
        inst: &Instance,
        group: &Group,
        estimates: &Estimates,
        cap: u64,
        lists: Lists,
        growth: Growth,
    )
        requires within { IsGroupOf inst.now group.now }
        requires estimates { AreEstimatesFor inst.now group.now estimates.now }
        ensures tests { (v : Numbered) → AreTestsOf (problem_of inst.now) v (members group.now) (step_sum (problem_of inst.now) (bound_by (problem_of inst.now)) (members group.now)) (min cap self.new.most) self.new.splits.items self.new.waiting.items }
        ensures number { self.new.number ≡ self.old.number }
        ensures weight { self.new.weight ≡ self.old.weight }
        ensures bound { self.new.bound ≡ self.old.bound }
        ensures capped { self.new.capped ≡ self.old.capped }
    {
        let Lists {
            mut splits,
            mut waiting,
        } = lists;
        splits.clear();
        waiting.clear();
        self.most = list_waiting(inst, group, estimates, cap, growth, &mut waiting);
        self.splits = splits;
        self.waiting = waiting;
    }

    /// Evaluates the test that waits at this place of the list, where there is room: its parts get numbers
    /// where they have none, and it goes to the end of the evaluated ones. The last test that waits takes its
    /// place. The group is the one of which this is kept. Where there is no room nothing but the numbers
    /// changes. It takes no memory, unless lists may grow.
    pub fn evaluate(
        &mut self,
        numbers: &mut Numbers,
        inst: &Instance,
        group: &Group,
        at: usize,
        growth: Growth,
    ) -> bool
        requires numbers { AreNumbersFor inst.now numbers.old }
        requires within { IsGroupOf inst.now group.now }
        requires there { at < vec_len self.old.waiting }
        requires splits { All (λ w. IsIn w.test (splitting (problem_of inst.now) (members group.now))) self.old.waiting.items }

        ensures numbers { AreNumbersFor inst.now numbers.new }
        ensures keeps { KeepsNumbers numbers.old numbers.new }
        ensures room { KeepsNumberRoom numbers.old numbers.new }

        ensures evaluated { result ≡ true → EvaluatesAt (problem_of inst.now) numbers.new (members group.now) at self.old self.new }
        ensures none_splits { result ≡ false → self.new.splits.items ≡ self.old.splits.items }
        ensures none_waiting { result ≡ false → self.new.waiting ≡ self.old.waiting }
        ensures tests { KeepsTests (problem_of inst.now) numbers.old numbers.new (members group.now) self.old self.new }

        ensures number { self.new.number ≡ self.old.number }
        ensures weight { self.new.weight ≡ self.old.weight }
        ensures bound { self.new.bound ≡ self.old.bound }
        ensures capped { self.new.capped ≡ self.old.capped }
        ensures most { self.new.most ≡ self.old.most }
    {
        if !growth.lets(self.splits.len(), self.splits.capacity()) {
            return false;
        }
        let test = self.waiting[at].test;
        let Some(split) = split_by(numbers, inst, group, test) else {
            return false;
        };
        if self.splits.push(split).is_err() {
            return false;
        }
        self.waiting.swap_remove(at);
        true
    }
}
