//! The strategy of the entered groups. Where greedy costs a group's value, greedy's whole tree is taken,
//! even where another test reaches the value too; else the lowest test that reaches it is asked, and so
//! on in both parts. The values stand in the rows, and greedy's costs and tests in the numbers where the
//! search has asked for them; others are worked out here, and kept as long as the numbers have room.
ghost use Rattle.std.specs.Prelude.{◌≡◌, ◌≢◌, ◌<◌, false, All, IfOk, IsSome, vec_len};
ghost use Rattle.seq_theory.specs.Problem.{is_end, weight_of as weight_sum};
ghost use Rattle.seq_theory.specs.Greedy.{greedy_cost as cost_of_greedy};
ghost use Rattle.seq_theory.specs.Graph.{val, is_value, step_value, value_test as lowest_test, strat};
ghost use Rattle.seq_inst.specs.Members.{members};
ghost use Rattle.seq_inst.specs.Instances.{problem_of, IsGroupOf};
ghost use Rattle.seq_inst.specs.Trees.{tree_of};
ghost use Rattle.seq_graph.specs.Numbered.{AreNumbersFor};
ghost use Rattle.seq_core.specs.Tables.{placed_groups};
ghost use Rattle.seq_core.specs.Settled.{groups_in};
ghost use Rattle.seq_finish.specs.Outcomes.{IsSettled};

use crate::places::value_of;
use seq_core::Places;
use seq_graph::Numbers;
use seq_inst::{Group, Instance, Row, Strategy, ask_first, is_leaf, parts_of, splits, weight_of};
use std::alloc::{AllocError, Global};

/// Whether the test, and the values of its parts, cost this together. A part without a value reaches
/// nothing.
fn reaches(
    inst: &Instance,
    rows: &[Row],
    places: &Places,
    group: &Group,
    test: u32,
    weight: u64,
    value: u64,
) -> bool
    requires placed { places.now.placed ≡ placed_groups 0 rows.now }
    requires settled { All (IsSettled (problem_of inst.now) (groups_in rows.now)) rows.now }
    requires within { IsGroupOf inst.now group.now }
    requires there { test < vec_len inst.now.costs }
    requires weight { weight ≡ weight_sum (problem_of inst.now) (members group.now) }
    ensures { result ≡ is_value (step_value (problem_of inst.now) (val (problem_of inst.now) (groups_in rows.now)) (members group.now) test) (Some value) }
{
    let parts = parts_of(inst, group, test);
    match (
        value_of(inst, rows, places, &parts.pass),
        value_of(inst, rows, places, &parts.fail),
    ) {
        (Some(pass), Some(fail)) => {
            u64::from(inst.costs[test as usize]) * weight + (pass + fail) == value
        }
        _ => false,
    }
}

/// The lowest test that reaches the group's value, where greedy costs more.
fn value_test(inst: &Instance, rows: &[Row], places: &Places, group: &Group, value: u64) -> u32
    requires placed { places.now.placed ≡ placed_groups 0 rows.now }
    requires settled { All (IsSettled (problem_of inst.now) (groups_in rows.now)) rows.now }
    requires within { IsGroupOf inst.now group.now }
    requires value { val (problem_of inst.now) (groups_in rows.now) (members group.now) ≡ Some value }
    requires more { is_end (problem_of inst.now) (members group.now) ≡ false }
    requires dear { cost_of_greedy (problem_of inst.now) (members group.now) ≢ value }
    ensures { result ≡ lowest_test (problem_of inst.now) (groups_in rows.now) (members group.now) }
{
    let weight = weight_of(inst, group);
    let tests = inst.costs.len() as u32;
    for test in 0..tests {
        if splits(inst, group, test) && reaches(inst, rows, places, group, test, weight, value) {
            return test;
        }
    }
    unreachable!()
}

/// The strategy of a group that has a value.
pub(crate) fn strategy_of(
    alloc: Global,
    inst: &Instance,
    numbers: &mut Numbers,
    rows: &[Row],
    places: &Places,
    group: &Group,
) -> Result<Strategy, AllocError>
    requires numbers { AreNumbersFor inst.now numbers.old }
    requires placed { places.now.placed ≡ placed_groups 0 rows.now }
    requires settled { All (IsSettled (problem_of inst.now) (groups_in rows.now)) rows.now }
    requires within { IsGroupOf inst.now group.now }
    requires valued { IsSome (val (problem_of inst.now) (groups_in rows.now) (members group.now)) }
    ensures numbers { AreNumbersFor inst.now numbers.new }
    ensures strategy { IfOk result (λ s. tree_of s ≡ strat (problem_of inst.now) (groups_in rows.now) (members group.now)) }
{
    if is_leaf(inst, group) {
        return Ok(Strategy::Leaf);
    }
    let value = match value_of(inst, rows, places, group) {
        Some(value) => value,
        None => unreachable!(),
    };
    if numbers.greedy_of(inst, group) == value {
        return numbers.greedy_tree(alloc, inst, group);
    }
    let test = value_test(inst, rows, places, group, value);
    let parts = parts_of(inst, group, test);
    let pass = strategy_of(alloc, inst, numbers, rows, places, &parts.pass)?;
    let fail = strategy_of(alloc, inst, numbers, rows, places, &parts.fail)?;
    ask_first(alloc, test, pass, fail)
}
