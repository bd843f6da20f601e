//! The test of least sum. Not all tests are evaluated: one waits with a number that is at most its sum,
//! and is evaluated where this number is no more than the least sum so far. Where all that wait are
//! above it, the least sum is certain, and is what evaluating all tests would give. Where the lists have no room
//! for the tests that may have it, all tests are gone over the plain way.
ghost use Rattle.std.specs.Prelude.{◌≡◌, ◌<◌, length, Some};
ghost use Rattle.seq_theory.specs.Bound.{step_sum};
ghost use Rattle.seq_theory.specs.Graph.{step_value};
ghost use Rattle.seq_theory.specs.Rows.{known_low, known_up};
ghost use Rattle.seq_inst.specs.Members.{members};
ghost use Rattle.seq_inst.specs.Instances.{problem_of};
ghost use Rattle.seq_core.specs.RowsOf.{rows_of as rows_from};
ghost use Rattle.seq_graph.specs.KeptOf.{HasParts};
ghost use Rattle.seq_graph.specs.Known.{group_at, splits_at, waiting_at, IsGraphOf};
ghost use Rattle.seq_core.specs.Settled.{value_or};
ghost use Rattle.seq_graph.specs.Rooms.{KeepsRoom};
ghost use Rattle.seq_graph.specs.Settling.{evaluated_up};
ghost use Rattle.seq_graph.specs.Choice.{lesser_split, lesser_value, IsChoice, IsLeastOf, IsCertain};
ghost use Rattle.seq_graph.specs.Steps.{least_test as least_test_of};

use crate::graph::Graph;
use crate::node::Split;
use crate::plain::{plain_test, plain_up};
use crate::sums::sum_of;
use crate::waiting::{evaluate, next_waiting};
use seq_inst::Instance;

/// A test with the numbers of its parts, and its sum.
#[derive(Clone, Copy)]
pub(crate) struct Chosen {
    pub(crate) split: Split,
    pub(crate) sum: u64,
}

/// The earlier choice, unless the new sum is less, or no more and its test lower.
fn choose(earlier: Option<Chosen>, split: Split, sum: u64) -> Chosen
    ensures { result ≡ lesser_split earlier split sum }
{
    match earlier {
        Some(chosen)
            if chosen.sum < sum || (chosen.sum == sum && chosen.split.test <= split.test) => {
            chosen
        }
        _ => Chosen { split, sum },
    }
}

/// The sum of a test over the group of the place, and what its parts count.
pub(crate) fn low_sum(inst: &Instance, graph: &Graph, place: usize, split: Split) -> u64
    requires known { IsGraphOf inst.now graph.now }
    requires place { place < length graph.now.rows.items }
    requires parts { HasParts (problem_of inst.now) graph.now.numbers (members (group_at graph.now.rows.items place)) split }
    requires there { split.test < length inst.now.costs.items }
    ensures { result ≡ step_sum (problem_of inst.now) (known_low (problem_of inst.now) (rows_from graph.now.rows.items)) (members (group_at graph.now.rows.items place)) split.test }
{
    let weight = graph.nodes[place].weight;
    sum_of(inst, graph.counts.as_slice(), weight, split)
}

/// The evaluated test of least sum, the lowest of these, if any is evaluated.
fn least_evaluated(inst: &Instance, graph: &Graph, place: usize) -> Option<Chosen>
    requires known { IsGraphOf inst.now graph.now }
    requires place { place < length graph.now.rows.items }
    ensures { IsChoice (step_sum (problem_of inst.now) (known_low (problem_of inst.now) (rows_from graph.now.rows.items)) (members (group_at graph.now.rows.items place))) (splits_at graph.now.nodes.items place) result }
{
    let splits = graph.nodes[place].splits.as_slice();
    let mut chosen = None;
    for split in splits {
        let sum = low_sum(inst, graph, place, *split);
        chosen = Some(choose(chosen, *split, sum));
    }
    chosen
}

/// The sum of a test and the ups of its parts, if both have one.
pub(crate) fn up_sum(inst: &Instance, graph: &Graph, place: usize, split: Split) -> Option<u64>
    requires known { IsGraphOf inst.now graph.now }
    requires place { place < length graph.now.rows.items }
    requires parts { HasParts (problem_of inst.now) graph.now.numbers (members (group_at graph.now.rows.items place)) split }
    requires there { split.test < length inst.now.costs.items }
    ensures { result ≡ step_value (problem_of inst.now) (known_up (problem_of inst.now) (rows_from graph.now.rows.items)) (members (group_at graph.now.rows.items place)) split.test }
{
    let pass = graph.counts[split.pass as usize].up;
    let fail = graph.counts[split.fail as usize].up;
    if pass == u64::MAX || fail == u64::MAX {
        return None;
    }
    Some(u64::from(inst.costs[split.test as usize]) * graph.nodes[place].weight + (pass + fail))
}

/// The splitting test of least sum, the lowest of these, with its sum, and the sum of the ups of its parts.
#[derive(Clone, Copy)]
pub(crate) struct Least {
    pub(crate) test: u32,
    pub(crate) sum: u64,
    /// `u64::MAX` where a part has no up.
    pub(crate) up: u64,
}

/// The evaluated test of least sum, with the sum of the ups of its parts.
fn listed_least(inst: &Instance, graph: &Graph, place: usize, chosen: Chosen) -> Least
    requires known { IsGraphOf inst.now graph.now }
    requires place { place < length graph.now.rows.items }
    requires parts { HasParts (problem_of inst.now) graph.now.numbers (members (group_at graph.now.rows.items place)) chosen.split }
    requires there { chosen.split.test < length inst.now.costs.items }
    ensures test { result.test ≡ chosen.split.test }
    ensures sum { result.sum ≡ chosen.sum }
    ensures up { result.up ≡ value_or (step_value (problem_of inst.now) (known_up (problem_of inst.now) (rows_from graph.now.rows.items)) (members (group_at graph.now.rows.items place)) chosen.split.test) }
{
    let up = match up_sum(inst, graph, place, chosen.split) {
        Some(up) => up,
        None => u64::MAX,
    };
    Least {
        test: chosen.split.test,
        sum: chosen.sum,
        up,
    }
}

/// The test of least sum, where the lists have no room for all tests that it may be.
fn plain_least(inst: &Instance, graph: &mut Graph, place: usize) -> Least
    requires known { IsGraphOf inst.now graph.old }
    requires place { place < length graph.old.rows.items }
    ensures known { IsGraphOf inst.now graph.new }
    ensures rows { graph.new.rows ≡ graph.old.rows }
    ensures keeps { KeepsRoom graph.old graph.new }
    ensures test { result.test ≡ least_test_of (problem_of inst.now) graph.new.rows.items (members (group_at graph.new.rows.items place)) }
    ensures sum { result.sum ≡ step_sum (problem_of inst.now) (known_low (problem_of inst.now) (rows_from graph.new.rows.items)) (members (group_at graph.new.rows.items place)) result.test }
    ensures up { result.up ≡ value_or (step_value (problem_of inst.now) (known_up (problem_of inst.now) (rows_from graph.new.rows.items)) (members (group_at graph.new.rows.items place)) result.test) }
{
    let plain = plain_test(inst, graph, place);
    let up = plain_up(inst, graph, place, plain.test);
    Least {
        test: plain.test,
        sum: plain.sum,
        up,
    }
}

/// The test of least sum, where the evaluated one that was chosen is certain among those that are listed.
fn certain_least(inst: &Instance, graph: &mut Graph, place: usize, chosen: Chosen) -> Least
    requires known { IsGraphOf inst.now graph.old }
    requires place { place < length graph.old.rows.items }
    requires least { IsLeastOf (step_sum (problem_of inst.now) (known_low (problem_of inst.now) (rows_from graph.old.rows.items)) (members (group_at graph.old.rows.items place))) (splits_at graph.old.nodes.items place) chosen }
    requires certain { IsCertain (Some chosen) (waiting_at graph.old.nodes.items place) }
    ensures known { IsGraphOf inst.now graph.new }
    ensures rows { graph.new.rows ≡ graph.old.rows }
    ensures keeps { KeepsRoom graph.old graph.new }
    ensures test { result.test ≡ least_test_of (problem_of inst.now) graph.new.rows.items (members (group_at graph.new.rows.items place)) }
    ensures sum { result.sum ≡ step_sum (problem_of inst.now) (known_low (problem_of inst.now) (rows_from graph.new.rows.items)) (members (group_at graph.new.rows.items place)) result.test }
    ensures up { result.up ≡ value_or (step_value (problem_of inst.now) (known_up (problem_of inst.now) (rows_from graph.new.rows.items)) (members (group_at graph.new.rows.items place)) result.test) }
{
    if chosen.sum <= graph.nodes[place].most {
        return listed_least(inst, graph, place, chosen);
    }
    plain_least(inst, graph, place)
}

/// The test of least sum: by the lists where these have room, else the plain way.
pub(crate) fn least_test(inst: &Instance, graph: &mut Graph, place: usize) -> Least
    requires known { IsGraphOf inst.now graph.old }
    requires place { place < length graph.old.rows.items }
    ensures known { IsGraphOf inst.now graph.new }
    ensures rows { graph.new.rows ≡ graph.old.rows }
    ensures keeps { KeepsRoom graph.old graph.new }
    ensures test { result.test ≡ least_test_of (problem_of inst.now) graph.new.rows.items (members (group_at graph.new.rows.items place)) }
    ensures sum { result.sum ≡ step_sum (problem_of inst.now) (known_low (problem_of inst.now) (rows_from graph.new.rows.items)) (members (group_at graph.new.rows.items place)) result.test }
    ensures up { result.up ≡ value_or (step_value (problem_of inst.now) (known_up (problem_of inst.now) (rows_from graph.new.rows.items)) (members (group_at graph.new.rows.items place)) result.test) }
{
    let mut chosen = least_evaluated(inst, graph, place);
    while let Some(at) = next_waiting(graph.nodes[place].waiting.as_slice(), chosen) {
        let Some(split) = evaluate(inst, graph, place, at) else {
            return plain_least(inst, graph, place);
        };
        let sum = low_sum(inst, graph, place, split);
        chosen = Some(choose(chosen, split, sum));
    }
    match chosen {
        Some(chosen) => certain_least(inst, graph, place, chosen),
        None => plain_least(inst, graph, place),
    }
}

/// The lesser of a number and a value, if there is one.
pub(crate) fn lesser_of(number: u64, value: Option<u64>) -> u64
    ensures { result ≡ lesser_value number value }
{
    match value {
        None => number,
        Some(value) => number.min(value),
    }
}

/// The least of the sums of the ups of the evaluated tests' parts: `u64::MAX` where none has both.
pub(crate) fn least_up(inst: &Instance, graph: &Graph, place: usize) -> u64
    requires known { IsGraphOf inst.now graph.now }
    requires place { place < length graph.now.rows.items }
    ensures { result ≡ evaluated_up (problem_of inst.now) graph.now.rows.items graph.now.nodes.items place }
{
    let splits = graph.nodes[place].splits.as_slice();
    let mut least = u64::MAX;
    for split in splits {
        least = lesser_of(least, up_sum(inst, graph, place, *split));
    }
    least
}
