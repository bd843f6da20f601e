//! The tests of a group that wait to be evaluated. Each waits with a number that is at most its sum. The
//! test that is evaluated next is the one of least number, until all numbers are above the least sum.
ghost use Rattle.std.specs.Prelude.{◌≡◌, ◌<◌, ◌++◌, ◌∷◌, length, take, IfSome, IfNone, []};
ghost use Rattle.seq_graph.specs.Known.{splits_at, waiting_at, IsGraphOf};
ghost use Rattle.seq_graph.specs.Rooms.{KeepsRoom};
ghost use Rattle.seq_graph.specs.Choice.{IsLeastWaiting, IsCertain};

use crate::choice::Chosen;
use crate::counts::count_new;
use crate::graph::Graph;
use crate::node::{Growth, Split, Waiting};
use crate::rooms::reserve_numbers;
use seq_inst::Instance;

/// The place of the test that waits with the least number, if any waits.
pub(crate) fn least_waiting(waiting: &[Waiting]) -> Option<usize>
    ensures least { IfSome result (IsLeastWaiting waiting.now) }
    ensures none { IfNone result (waiting.now ≡ []) }
{
    let mut least = None;
    for at in 0..waiting.len() {
        least = match least {
            Some(other) if waiting[other].least <= waiting[at].least => Some(other),
            _ => Some(at),
        };
    }
    least
}

/// The place of the test that is to be evaluated next, if one has to be.
pub(crate) fn next_waiting(waiting: &[Waiting], chosen: Option<Chosen>) -> Option<usize>
    ensures there { IfSome result (λ at. at < length waiting.now) }
    ensures none { IfNone result (IsCertain chosen waiting.now) }
{
    match least_waiting(waiting) {
        None => None,
        Some(at) => match chosen {
            Some(chosen) if chosen.sum < waiting[at].least => None,
            _ => Some(at),
        },
    }
}

/// The room that is made for numbers of parts, where lists may grow.
const ROOM_FOR_PARTS: u32 = 512;

/// Makes room for the numbers of two parts, where lists may grow and there is memory.
fn make_room(inst: &Instance, graph: &mut Graph)
    requires known { IsGraphOf inst.now graph.old }
    ensures known { IsGraphOf inst.now graph.new }
    ensures rows { graph.new.rows ≡ graph.old.rows }
    ensures nodes { graph.new.nodes ≡ graph.old.nodes }
    ensures keeps { KeepsRoom graph.old graph.new }
{
    if graph.growth == Growth::Free && graph.numbers.room() < 2 {
        let _ = reserve_numbers(inst, graph, ROOM_FOR_PARTS, 0);
    }
}

/// Evaluates the test that waits at this place of the list, where there is room. It is then the last of the
/// evaluated ones.
pub(crate) fn evaluate(inst: &Instance, graph: &mut Graph, place: usize, at: usize) -> Option<Split>
    requires known { IsGraphOf inst.now graph.old }
    requires place { place < length graph.old.rows.items }
    requires there { at < length (waiting_at graph.old.nodes.items place) }
    ensures known { IsGraphOf inst.now graph.new }
    ensures rows { graph.new.rows ≡ graph.old.rows }
    ensures keeps { KeepsRoom graph.old graph.new }
    ensures last { IfSome result (λ s. splits_at graph.new.nodes.items place ≡ splits_at graph.old.nodes.items place ++ s ∷ []) }
    ensures before { IfSome result (λ _. take at (waiting_at graph.new.nodes.items place) ≡ take at (waiting_at graph.old.nodes.items place)) }
    ensures fewer { IfSome result (λ _. length (waiting_at graph.new.nodes.items place) < length (waiting_at graph.old.nodes.items place)) }
{
    make_room(inst, graph);
    if graph.counts.capacity() < graph.numbers.capacity() as usize {
        return None;
    }
    let group = graph.rows[place].group;
    let growth = graph.growth;
    let done = graph.nodes[place].evaluate(&mut graph.numbers, inst, &group, at, growth);
    count_new(inst, &graph.numbers, &mut graph.counts);
    if done {
        let splits = graph.nodes[place].splits.as_slice();
        return Some(splits[splits.len() - 1]);
    }
    None
}
