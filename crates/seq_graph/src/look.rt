//! Looks for tests that wait though both of their parts have an up, as those were entered by way of
//! other tests. Such a test counts for the group's value, so it is evaluated when the group's row is
//! settled. A walk needs no look: a test that waits has a sum above the least, so it is not asked, and what
//! its parts cost can't close the group.
ghost use Rattle.std.specs.Prelude.{◌≡◌, ◌<◌, length, is_some, vec_len, true};
ghost use Rattle.seq_theory.specs.Graph.{step_value};
ghost use Rattle.seq_theory.specs.Rows.{known_up};
ghost use Rattle.seq_inst.specs.Members.{members};
ghost use Rattle.seq_inst.specs.Instances.{problem_of};
ghost use Rattle.seq_core.specs.RowsOf.{rows_of as rows_from};
ghost use Rattle.seq_graph.specs.Known.{IsGraphOf};
ghost use Rattle.seq_graph.specs.Looks.{NoneIsValued};

use crate::graph::Graph;
use crate::waiting::evaluate;
use seq_inst::{Group, Instance, is_leaf, parts_of};

/// Whether the group has one goal, or a number beside which an up stands.
fn has_up(inst: &Instance, graph: &Graph, group: &Group) -> bool
    requires known { IsGraphOf inst.now graph.now }
    ensures { result ≡ is_some (known_up (problem_of inst.now) (rows_from graph.now.rows.items) (members group.now)) }
{
    match graph.numbers.find(group) {
        Some(number) => graph.counts[number as usize].up != u64::MAX,
        None => is_leaf(inst, group),
    }
}

/// Whether both parts of the group by the test have an up.
fn have_ups(inst: &Instance, graph: &Graph, group: &Group, test: u32) -> bool
    requires known { IsGraphOf inst.now graph.now }
    requires there { test < vec_len inst.now.costs }
    ensures { result ≡ is_some (step_value (problem_of inst.now) (known_up (problem_of inst.now) (rows_from graph.now.rows.items)) (members group.now) test) }
{
    let parts = parts_of(inst, group, test);
    has_up(inst, graph, &parts.pass) && has_up(inst, graph, &parts.fail)
}

/// Evaluates the tests that wait though both of their parts have an up. The answer is whether there was room
/// for all of them.
pub(crate) fn look_at_all(inst: &Instance, graph: &mut Graph, place: usize) -> bool
    requires known { IsGraphOf inst.now graph.old }
    requires place { place < length graph.old.rows.items }
    ensures known { IsGraphOf inst.now graph.new }
    ensures rows { graph.new.rows ≡ graph.old.rows }
    ensures valued { result ≡ true → NoneIsValued (problem_of inst.now) graph.new.rows.items graph.new.nodes.items place }
{
    let group = graph.rows[place].group;
    let mut at = 0;
    while at < graph.nodes[place].waiting.len() {
        let test = graph.nodes[place].waiting[at].test;
        if have_ups(inst, graph, &group, test) {
            if evaluate(inst, graph, place, at).is_none() {
                return false;
            }
        } else {
            at += 1;
        }
    }
    true
}
