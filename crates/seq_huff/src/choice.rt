//! The greedy strategy: in each group the splitting test of least sum over the bounds of its parts, the
//! lowest of these. It is right, so what it costs is an upper bound of the least cost.
ghost use Rattle.std.specs.Prelude.{◌≡◌, ◌≤◌, false, IfOk, vec_len};
ghost use Rattle.seq_theory.specs.Problem.{is_end, weight_of as weight_sum};
ghost use Rattle.seq_theory.specs.Tree.{Solves, tree_cost};
ghost use Rattle.seq_theory.specs.Greedy.{greedy_test, greedy_cost as cost_of_greedy, greedy as tree_of_greedy};
ghost use Rattle.seq_inst.specs.Members.{members};
ghost use Rattle.seq_inst.specs.Instances.{problem_of, IsGroupOf};
ghost use Rattle.seq_inst.specs.Trees.{tree_of};
ghost use Rattle.seq_inst.specs.Shapes.{height, leaf_count, AsksSplitting};
ghost use Rattle.seq_huff.specs.Bounds.{IsAtLeastLeast, greatest_cost};
ghost use Rattle.seq_huff.specs.Choice.{lesser_choice};

use crate::scratch::Scratch;
use crate::steps::step_sum;
use seq_inst::{Group, Instance, Strategy, ask_first, is_leaf, parts_of, splits, weight_of};
use seq_theory::recursions_hold;
use std::alloc::{AllocError, Global};

/// A test and its sum.
#[derive(Clone, Copy)]
struct Chosen {
    test: u32,
    sum: u64,
}

/// The earlier choice, unless the new sum is less.
fn choose(earlier: Option<Chosen>, test: u32, sum: u64) -> Chosen
    ensures { result ≡ lesser_choice earlier test sum }
{
    match earlier {
        Some(chosen) if chosen.sum <= sum => chosen,
        _ => Chosen { test, sum },
    }
}

/// The splitting test of least sum over the bounds of its parts, the lowest of these.
fn greedy_choice(scratch: &mut Scratch, inst: &Instance, group: &Group, weight: u64) -> u32
    requires within { IsGroupOf inst.now group.now }
    requires weight { weight ≡ weight_sum (problem_of inst.now) (members group.now) }
    requires more { is_end (problem_of inst.now) (members group.now) ≡ false }
    ensures { result ≡ greedy_test (problem_of inst.now) (members group.now) }
{
    let tests = inst.costs.len() as u32;
    let mut chosen = None;
    for test in 0..tests {
        if splits(inst, group, test) {
            let sum = step_sum(scratch, inst, group, test, weight);
            chosen = Some(choose(chosen, test, sum));
        }
    }
    match chosen {
        Some(chosen) => chosen.test,
        None => unreachable!(),
    }
}

/// What the greedy strategy costs over the group.
pub fn greedy_cost(scratch: &mut Scratch, inst: &Instance, group: &Group) -> u64
    requires { IsGroupOf inst.now group.now }
    ensures value { result ≡ cost_of_greedy (problem_of inst.now) (members group.now) }
    ensures high { IsAtLeastLeast (problem_of inst.now) (members group.now) result }
    ensures fits { result ≤ greatest_cost }
{
    if is_leaf(inst, group) {
        return 0;
    }
    let weight = weight_of(inst, group);
    let test = greedy_choice(scratch, inst, group, weight);
    let parts = parts_of(inst, group, test);
    let pass = greedy_cost(scratch, inst, &parts.pass);
    let fail = greedy_cost(scratch, inst, &parts.fail);
    u64::from(inst.costs[test as usize]) * weight + (pass + fail)
}

/// The greedy strategy for the group. It asks only tests that split what reaches them, so it has at
/// most as many leaves as there are classes.
pub fn greedy(
    alloc: Global,
    scratch: &mut Scratch,
    inst: &Instance,
    group: &Group,
) -> Result<Strategy, AllocError>
    requires { IsGroupOf inst.now group.now }
    ensures value { IfOk result (λ s. tree_of s ≡ tree_of_greedy (problem_of inst.now) (members group.now)) }
    ensures right { IfOk result (λ s. Solves (problem_of inst.now) (tree_of s) (members group.now)) }
    ensures cost { IfOk result (λ s. tree_cost (problem_of inst.now) (tree_of s) (members group.now) ≡ cost_of_greedy (problem_of inst.now) (members group.now)) }
    ensures splitting { IfOk result (λ s. AsksSplitting (problem_of inst.now) (tree_of s) (members group.now)) }
    ensures leaves { IfOk result (λ s. leaf_count (tree_of s) ≤ vec_len inst.now.weights) }
    ensures short { IfOk result (λ s. height (tree_of s) ≤ 512) }
{
    recursions_hold();
    if is_leaf(inst, group) {
        return Ok(Strategy::Leaf);
    }
    let weight = weight_of(inst, group);
    let test = greedy_choice(scratch, inst, group, weight);
    let parts = parts_of(inst, group, test);
    let pass = greedy(alloc, scratch, inst, &parts.pass)?;
    let fail = greedy(alloc, scratch, inst, &parts.fail)?;
    ask_first(alloc, test, pass, fail)
}
