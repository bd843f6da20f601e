//! One turn of the walk. It goes down step by step, until it enters a group or closes one. The groups that
//! it came through are raised and capped from below upwards.
ghost use Rattle.std.specs.Prelude.{◌≡◌, ◌≢◌, ◌<◌, ◌≤◌, length, IfOk};
ghost use Rattle.seq_inst.specs.Instances.{problem_of};
ghost use Rattle.seq_graph.specs.Known.{AreSound, row_at, IsGraphOf};
ghost use Rattle.seq_graph.specs.Walks.{HasTurned};

use crate::entering::enter_one;
use seq_graph::{Graph, Step, back_up, next_step, turns_move};
use seq_inst::{Answer, Group, Instance};
use std::alloc::{AllocError, Global};

/// One turn from a group on. The answer is the group that could not be entered, if there is one; then
/// nothing has changed.
pub(crate) fn turn(
    alloc: Global,
    inst: &Instance,
    limit: u32,
    graph: &mut Graph,
    place: usize,
) -> Result<Option<Group>, AllocError>
    requires known { IsGraphOf inst.now graph.old }
    requires sound { AreSound (problem_of inst.now) graph.old.rows.items }
    requires few { length graph.old.rows.items ≤ limit }
    requires place { place < length graph.old.rows.items }
    requires apart { (row_at graph.old.rows.items place).low ≢ (row_at graph.old.rows.items place).up }
    requires small { limit ≤ 32768 }
    ensures known { IfOk result (λ _. IsGraphOf inst.now graph.new) }
    ensures sound { IfOk result (λ _. AreSound (problem_of inst.now) graph.new.rows.items) }
    ensures turned { IfOk result (HasTurned (problem_of inst.now) limit graph.old.rows.items graph.new.rows.items) }
{
    turns_move();
    match next_step(inst, graph, place, Answer::Pass) {
        Step::Enter { group } => {
            if graph.rows.len() >= limit as usize {
                return Ok(Some(group));
            }
            enter_one(alloc, inst, graph, &group)?;
            back_up(inst, graph, place);
            Ok(None)
        }
        Step::Down { place: next } => {
            if let Some(group) = turn(alloc, inst, limit, graph, next)? {
                return Ok(Some(group));
            }
            back_up(inst, graph, place);
            Ok(None)
        }
        Step::Close => {
            back_up(inst, graph, place);
            Ok(None)
        }
    }
}
