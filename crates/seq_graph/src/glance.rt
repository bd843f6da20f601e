//! A glance at a group on a worker's way up: what its tests allow for its bounds by what is known of them now.
//! Unlike `backed_up` it evaluates no test, and so changes nothing: a test that waits counts for the number
//! that it waits with. The low that it gives may be less than the rows allow, and never more. It costs one
//! pass over each of the group's lists.
ghost use Rattle.std.specs.Prelude.{◌<◌, ◌≤◌, length, All};
ghost use Rattle.seq_theory.specs.Bound.{step_sum};
ghost use Rattle.seq_theory.specs.Rows.{known_low, least_up};
ghost use Rattle.seq_inst.specs.Members.{members};
ghost use Rattle.seq_inst.specs.Instances.{problem_of};
ghost use Rattle.seq_core.specs.RowsOf.{rows_of as rows_from};
ghost use Rattle.seq_graph.specs.Known.{AreBounds, Allow, group_at, splits_at, IsGraphOf};

use crate::bounds::Bounds;
use crate::choice::{lesser_of, low_sum, up_sum};
use crate::graph::Graph;
use crate::node::Waiting;
use crate::waiting::least_waiting;
use seq_inst::Instance;

/// The least sum of an evaluated test over what its parts count for a low, and the least over what they count
/// for an up: `u64::MAX` where there is none.
fn evaluated_bounds(inst: &Instance, graph: &Graph, place: usize) -> Bounds
    requires known { IsGraphOf inst.now graph.now }
    requires place { place < length graph.now.rows.items }
    ensures low { All (λ s. result.low ≤ step_sum (problem_of inst.now) (known_low (problem_of inst.now) (rows_from graph.now.rows.items)) (members (group_at graph.now.rows.items place)) s.test) (splits_at graph.now.nodes.items place) }
    ensures up { least_up (problem_of inst.now) (rows_from graph.now.rows.items) (members (group_at graph.now.rows.items place)) ≤ result.up }
{
    let splits = graph.nodes[place].splits.as_slice();
    let mut low = u64::MAX;
    let mut up = u64::MAX;
    for split in splits {
        low = low.min(low_sum(inst, graph, place, *split));
        up = lesser_of(up, up_sum(inst, graph, place, *split));
    }
    Bounds { low, up }
}

/// The least of a number and those that the tests wait with.
fn least_number(waiting: &[Waiting], number: u64) -> u64
    ensures number { result ≤ number }
    ensures waiting { All (λ w. result ≤ w.least) waiting.now }
{
    match least_waiting(waiting) {
        Some(at) => number.min(waiting[at].least),
        None => number,
    }
}

/// What the tests of a group allow for its bounds, by what is known of them now. A test that waits counts for
/// the number that it waits with, and one that isn't listed for the number above which tests may be missing.
/// The up is `u64::MAX` where no evaluated test has an up for both of its parts.
pub fn seen_bounds(inst: &Instance, graph: &Graph, place: usize) -> Bounds
    requires known { IsGraphOf inst.now graph.now }
    requires place { place < length graph.now.rows.items }
    ensures allowed { Allow (problem_of inst.now) graph.now.rows.items (members (group_at graph.now.rows.items place)) result.low result.up }
    ensures right { AreBounds (problem_of inst.now) (members (group_at graph.now.rows.items place)) result.low result.up }
{
    let node = &graph.nodes[place];
    let missing = graph.rows[place].up.min(node.most);
    let waiting = least_number(node.waiting.as_slice(), missing);
    let evaluated = evaluated_bounds(inst, graph, place);
    Bounds {
        low: node.bound.max(evaluated.low.min(waiting)),
        up: evaluated.up,
    }
}
