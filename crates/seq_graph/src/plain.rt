//! Sums of tests the plain way, by what is known of their parts. Where a group's lists have no room for a test
//! that may be of least sum, all tests that split the group are gone over. It takes no memory and uses no room,
//! and the answers are those of the lists: only slower.
ghost use Rattle.std.specs.Prelude.{◌≡◌, ◌+◌, ◌<◌, ◌≤◌, length, vec_len};
ghost use Rattle.seq_theory.specs.Problem.{weight_of as weight_sum};
ghost use Rattle.seq_theory.specs.Bound.{step_sum};
ghost use Rattle.seq_theory.specs.Graph.{step_value};
ghost use Rattle.seq_theory.specs.Rows.{known_low, known_up};
ghost use Rattle.seq_huff.specs.Bounds.{greatest_cost};
ghost use Rattle.seq_inst.specs.Members.{members};
ghost use Rattle.seq_inst.specs.Instances.{problem_of, IsGroupOf};
ghost use Rattle.seq_core.specs.RowsOf.{rows_of as rows_from};
ghost use Rattle.seq_core.specs.Settled.{value_or};
ghost use Rattle.seq_graph.specs.Known.{group_at, IsGraphOf};
ghost use Rattle.seq_graph.specs.Rooms.{KeepsRoom};
ghost use Rattle.seq_graph.specs.Choice.{lesser_plain, LeastBelow};
ghost use Rattle.seq_graph.specs.Settling.{IsLeastUp, UpBelow};
ghost use Rattle.seq_graph.specs.Steps.{least_test as least_test_of};

use crate::graph::Graph;
use seq_inst::{Group, Instance, is_leaf, parts_of, splits};

/// A test and its sum.
#[derive(Clone, Copy)]
pub(crate) struct Plain {
    pub(crate) test: u32,
    pub(crate) sum: u64,
}

/// What a group counts for a low.
fn low_of(inst: &Instance, graph: &mut Graph, group: &Group) -> u64
    requires known { IsGraphOf inst.now graph.old }
    requires within { IsGroupOf inst.now group.now }
    ensures known { IsGraphOf inst.now graph.new }
    ensures rows { graph.new.rows ≡ graph.old.rows }
    ensures nodes { graph.new.nodes ≡ graph.old.nodes }
    ensures keeps { KeepsRoom graph.old graph.new }
    ensures value { result ≡ known_low (problem_of inst.now) (rows_from graph.old.rows.items) (members group.now) }
    ensures fits { result ≤ greatest_cost }
{
    match graph.numbers.find(group) {
        Some(number) => graph.counts[number as usize].low,
        None => graph.numbers.bound_within(inst, group),
    }
}

/// The sum of a test over the group, of which the weight is known, and what its parts count for a low.
fn plain_sum(inst: &Instance, graph: &mut Graph, group: &Group, weight: u64, test: u32) -> u64
    requires known { IsGraphOf inst.now graph.old }
    requires within { IsGroupOf inst.now group.now }
    requires weight { weight ≡ weight_sum (problem_of inst.now) (members group.now) }
    requires there { test < vec_len inst.now.costs }
    ensures known { IsGraphOf inst.now graph.new }
    ensures rows { graph.new.rows ≡ graph.old.rows }
    ensures nodes { graph.new.nodes ≡ graph.old.nodes }
    ensures keeps { KeepsRoom graph.old graph.new }
    ensures value { result ≡ step_sum (problem_of inst.now) (known_low (problem_of inst.now) (rows_from graph.old.rows.items)) (members group.now) test }
{
    let parts = parts_of(inst, group, test);
    let pass = low_of(inst, graph, &parts.pass);
    let fail = low_of(inst, graph, &parts.fail);
    u64::from(inst.costs[test as usize]) * weight + (pass + fail)
}

/// The earlier choice, unless the sum of the test is less.
fn lesser(earlier: Option<Plain>, test: u32, sum: u64) -> Plain
    ensures { result ≡ lesser_plain earlier test sum }
{
    match earlier {
        Some(earlier) if earlier.sum <= sum => earlier,
        _ => Plain { test, sum },
    }
}

/// The earlier choice, or this test, which comes next.
fn with_test(
    inst: &Instance,
    graph: &mut Graph,
    group: &Group,
    weight: u64,
    test: u32,
    chosen: Option<Plain>,
) -> Option<Plain>
    requires known { IsGraphOf inst.now graph.old }
    requires within { IsGroupOf inst.now group.now }
    requires weight { weight ≡ weight_sum (problem_of inst.now) (members group.now) }
    requires there { test < vec_len inst.now.costs }
    requires chosen { LeastBelow (problem_of inst.now) (members group.now) (step_sum (problem_of inst.now) (known_low (problem_of inst.now) (rows_from graph.old.rows.items)) (members group.now)) test chosen }
    ensures known { IsGraphOf inst.now graph.new }
    ensures rows { graph.new.rows ≡ graph.old.rows }
    ensures nodes { graph.new.nodes ≡ graph.old.nodes }
    ensures keeps { KeepsRoom graph.old graph.new }
    ensures chosen { LeastBelow (problem_of inst.now) (members group.now) (step_sum (problem_of inst.now) (known_low (problem_of inst.now) (rows_from graph.old.rows.items)) (members group.now)) (test + 1) result }
{
    if splits(inst, group, test) {
        let sum = plain_sum(inst, graph, group, weight, test);
        return Some(lesser(chosen, test, sum));
    }
    chosen
}

/// The splitting test of least sum, the lowest of these.
pub(crate) fn plain_test(inst: &Instance, graph: &mut Graph, place: usize) -> Plain
    requires known { IsGraphOf inst.now graph.old }
    requires place { place < length graph.old.rows.items }
    ensures known { IsGraphOf inst.now graph.new }
    ensures rows { graph.new.rows ≡ graph.old.rows }
    ensures nodes { graph.new.nodes ≡ graph.old.nodes }
    ensures keeps { KeepsRoom graph.old graph.new }
    ensures test { result.test ≡ least_test_of (problem_of inst.now) graph.old.rows.items (members (group_at graph.old.rows.items place)) }
    ensures sum { result.sum ≡ step_sum (problem_of inst.now) (known_low (problem_of inst.now) (rows_from graph.old.rows.items)) (members (group_at graph.old.rows.items place)) result.test }
{
    let group = graph.rows[place].group;
    let weight = graph.nodes[place].weight;
    let tests = inst.costs.len() as u32;
    let mut chosen = None;
    for test in 0..tests {
        chosen = with_test(inst, graph, &group, weight, test, chosen);
    }
    match chosen {
        Some(chosen) => chosen,
        None => unreachable!(),
    }
}

/// What a group counts for an up: `u64::MAX` where none is known.
fn up_of(inst: &Instance, graph: &Graph, group: &Group) -> u64
    requires known { IsGraphOf inst.now graph.now }
    ensures { result ≡ value_or (known_up (problem_of inst.now) (rows_from graph.now.rows.items) (members group.now)) }
{
    match graph.numbers.find(group) {
        Some(number) => graph.counts[number as usize].up,
        None => { if is_leaf(inst, group) { 0 } else { u64::MAX } }
    }
}

/// The sum of a test and the ups of its parts: `u64::MAX` where one has none.
pub(crate) fn plain_up(inst: &Instance, graph: &Graph, place: usize, test: u32) -> u64
    requires known { IsGraphOf inst.now graph.now }
    requires place { place < length graph.now.rows.items }
    requires there { test < length inst.now.costs.items }
    ensures { result ≡ value_or (step_value (problem_of inst.now) (known_up (problem_of inst.now) (rows_from graph.now.rows.items)) (members (group_at graph.now.rows.items place)) test) }
{
    let parts = parts_of(inst, &graph.rows[place].group, test);
    let pass = up_of(inst, graph, &parts.pass);
    let fail = up_of(inst, graph, &parts.fail);
    if pass == u64::MAX {
        return u64::MAX;
    }
    if fail == u64::MAX {
        return u64::MAX;
    }
    u64::from(inst.costs[test as usize]) * graph.nodes[place].weight + (pass + fail)
}

/// The least so far, or what this test gives, which comes next.
fn with_up(
    inst: &Instance,
    graph: &Graph,
    place: usize,
    group: &Group,
    test: u32,
    least: u64,
) -> u64
    requires known { IsGraphOf inst.now graph.now }
    requires place { place < length graph.now.rows.items }
    requires group { group.now ≡ group_at graph.now.rows.items place }
    requires there { test < length inst.now.costs.items }
    requires least { UpBelow (problem_of inst.now) graph.now.rows.items place test least }
    ensures { UpBelow (problem_of inst.now) graph.now.rows.items place (test + 1) result }
{
    if splits(inst, group, test) {
        return least.min(plain_up(inst, graph, place, test));
    }
    least
}

/// The least of the sums of all splitting tests and the ups of their parts: `u64::MAX` where no test has both.
pub(crate) fn plain_least_up(inst: &Instance, graph: &Graph, place: usize) -> u64
    requires known { IsGraphOf inst.now graph.now }
    requires place { place < length graph.now.rows.items }
    ensures { IsLeastUp (problem_of inst.now) graph.now.rows.items place result }
{
    let group = graph.rows[place].group;
    let tests = inst.costs.len() as u32;
    let mut least = u64::MAX;
    for test in 0..tests {
        least = with_up(inst, graph, place, &group, test, least);
    }
    least
}
