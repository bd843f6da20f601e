//! The whole search: the group of all classes is entered, and turns follow until its low and up meet or
//! a group finds no room. Each turn enters a group or closes one, so there are at most as many as twice
//! the limit.
ghost use Rattle.std.specs.Prelude.{◌≡◌, ◌≤◌, false, true, length, IfOk};
ghost use Rattle.seq_theory.specs.Problem.{all_classes, is_end};
ghost use Rattle.seq_theory.specs.Graph.{is_entered};
ghost use Rattle.seq_theory.specs.Rows.{IsSound};
ghost use Rattle.seq_inst.specs.Instances.{problem_of};
ghost use Rattle.seq_core.specs.RowsOf.{rows_of as rows_from};
ghost use Rattle.seq_core.specs.Settled.{groups_in};
ghost use Rattle.seq_core.specs.Entered.{MayStop};
ghost use Rattle.seq_graph.specs.Known.{IsGraphOf};
ghost use Rattle.seq_solo.specs.Found.{BeginsWithAll, HasEnded};

use crate::entering::enter_one;
use crate::found::{Found, Walked};
use crate::turn::turn;
use seq_graph::Graph;
use seq_inst::{Instance, is_leaf, root};
use std::alloc::{AllocError, Global};

/// Walks with room for so many groups. `finish_graph` makes the outcome of what it ends with.
pub fn walk(alloc: Global, inst: &Instance, limit: u32) -> Result<Walked, AllocError>
    requires some { 1 ≤ limit }
    requires few { limit ≤ 32768 }
    ensures known { IfOk result (λ w. IsGraphOf inst.now w.graph) }
    ensures few { IfOk result (λ w. length w.graph.rows.items ≤ limit) }
    ensures sound { IfOk result (λ w. IsSound (problem_of inst.now) limit (rows_from w.graph.rows.items)) }
    ensures first { IfOk result (λ w. BeginsWithAll (problem_of inst.now) w.graph.rows.items) }
    ensures root { IfOk result (λ w. is_end (problem_of inst.now) (all_classes (problem_of inst.now)) ≡ false → is_entered (groups_in w.graph.rows.items) (all_classes (problem_of inst.now)) ≡ true) }
    ensures ended { IfOk result (λ w. HasEnded (problem_of inst.now) limit w.graph.rows.items w.missed) }
    ensures stopped { IfOk result (λ w. MayStop (problem_of inst.now) limit (groups_in w.graph.rows.items) w.missed) }
{
    let all = root(inst);
    let mut graph = Graph::new(alloc, inst)?;
    if is_leaf(inst, &all) {
        return Ok(Walked {
            graph,
            missed: None,
        });
    }
    enter_one(alloc, inst, &mut graph, &all)?;
    'turns: while graph.rows[0].low != graph.rows[0].up {
        if let Some(missed) = turn(alloc, inst, limit, &mut graph, 0)? {
            return Ok(Walked {
                graph,
                missed: Some(missed),
            });
        }
    }
    Ok(Walked {
        graph,
        missed: None,
    })
}

/// Searches with room for so many groups. The rows are those of the walk: where it met its limit, the low
/// and the up of a row may be farther apart than the rows together allow.
pub fn solve_alone(alloc: Global, inst: &Instance, limit: u32) -> Result<Found, AllocError>
    requires some { 1 ≤ limit }
    requires few { limit ≤ 32768 }
    ensures sound { IfOk result (λ f. IsSound (problem_of inst.now) limit (rows_from f.rows.items)) }
    ensures first { IfOk result (λ f. BeginsWithAll (problem_of inst.now) f.rows.items) }
    ensures root { IfOk result (λ f. is_end (problem_of inst.now) (all_classes (problem_of inst.now)) ≡ false → is_entered (groups_in f.rows.items) (all_classes (problem_of inst.now)) ≡ true) }
    ensures ended { IfOk result (λ f. HasEnded (problem_of inst.now) limit f.rows.items f.missed) }
    ensures stopped { IfOk result (λ f. MayStop (problem_of inst.now) limit (groups_in f.rows.items) f.missed) }
{
    let Walked { graph, missed } = walk(alloc, inst, limit)?;
    Ok(Found {
        rows: graph.rows,
        missed,
    })
}
