//! A worker's graph takes in what all workers found. It has most of their groups, with what is kept of each, so
//! that only the others are listed here; and each row hears the bounds that all workers found together, so that
//! one that is closed anywhere costs nothing when the rows are settled.
ghost use Rattle.std.specs.Prelude.{◌≡◌, ℕ, List, true, map, All, IfOk};
ghost use Rattle.seq_theory.specs.Graph.{is_entered, IsReal};
ghost use Rattle.seq_inst.specs.Instances.{problem_of};
ghost use Rattle.seq_inst.specs.Members.{members};
ghost use Rattle.seq_core.specs.Settled.{groups_in, settled_row, settled_rows};
ghost use Rattle.seq_graph.specs.Behind.{AreBehind, IsPlaceOf};
ghost use Rattle.seq_graph.specs.Known.{AreBounds, AreSound, IsGraphOf};
ghost use Rattle.seq_finish.specs.Joining.{HasGroupsOf, IsAllowedBy, IsEnteredOnce};

use seq_graph::{Bounds, Graph, add, grow, hear, place_of};
use seq_inst::{Group, Instance, Row};
use std::alloc::{AllocError, Global};

/// The place of the group's row. Where it has none, it gets one.
fn place_for(
    alloc: Global,
    inst: &Instance,
    graph: &mut Graph,
    group: &Group,
) -> Result<u32, AllocError>
    requires known { IsGraphOf inst.now graph.old }
    requires real { IsReal (problem_of inst.now) (members group.now) }
    ensures known { IfOk result (λ _. IsGraphOf inst.now graph.new) }
    ensures place { IfOk result (IsPlaceOf graph.new.rows.items (members group.now)) }
    ensures rows { IfOk result (λ _. IsEnteredOnce (problem_of inst.now) group.now graph.old.rows.items graph.new.rows.items) }
{
    if let Some(place) = place_of(inst, graph, group) {
        return Ok(place);
    }
    let Ok(place) = u32::try_from(graph.rows.len()) else {
        return Err(AllocError);
    };
    grow(alloc, inst, graph)?;
    add(inst, graph, group);
    Ok(place)
}

/// The row's group hears the row's bounds.
fn hear_row(alloc: Global, inst: &Instance, graph: &mut Graph, row: &Row) -> Result<(), AllocError>
    requires known { IsGraphOf inst.now graph.old }
    requires real { IsReal (problem_of inst.now) (members row.now.group) }
    requires right { AreBounds (problem_of inst.now) (members row.now.group) row.now.low row.now.up }
    ensures known { IfOk result (λ _. IsGraphOf inst.now graph.new) }
    ensures allowed { IfOk result (λ _. (entered : List (List ℕ)) → IsAllowedBy (problem_of inst.now) entered row.now → All (IsAllowedBy (problem_of inst.now) entered) graph.old.rows.items → All (IsAllowedBy (problem_of inst.now) entered) graph.new.rows.items) }
    ensures keeps { IfOk result (λ _. HasGroupsOf graph.old.rows.items graph.new.rows.items) }
    ensures there { IfOk result (λ _. is_entered (groups_in graph.new.rows.items) (members row.now.group) ≡ true) }
{
    let place = place_for(alloc, inst, graph, &row.group)? as usize;
    let bounds = Bounds {
        low: row.low,
        up: row.up,
    };
    hear(inst, graph, place, bounds);
    Ok(())
}

/// The graph, which is behind these rows, takes them in: each of their groups has a row there then, and has
/// heard its bounds.
pub(crate) fn join(
    alloc: Global,
    inst: &Instance,
    graph: &mut Graph,
    rows: &[Row],
) -> Result<(), AllocError>
    requires known { IsGraphOf inst.now graph.old }
    requires sound { AreSound (problem_of inst.now) rows.now }
    requires behind { AreBehind rows.now graph.old.rows.items }
    ensures known { IfOk result (λ _. IsGraphOf inst.now graph.new) }
    ensures sound { IfOk result (λ _. AreSound (problem_of inst.now) graph.new.rows.items) }
    ensures all { IfOk result (λ _. HasGroupsOf rows.now graph.new.rows.items) }
    ensures no_others { IfOk result (λ _. HasGroupsOf graph.new.rows.items rows.now) }
{
    for row in rows {
        hear_row(alloc, inst, graph, row)?;
    }
    Ok(())
}

/// The row with the bounds of the graph's row of its group.
fn settled_one(inst: &Instance, graph: &Graph, row: &Row) -> Row
    requires known { IsGraphOf inst.now graph.now }
    requires settled { graph.now.rows.items ≡ settled_rows (problem_of inst.now) graph.now.rows.items }
    requires there { is_entered (groups_in graph.now.rows.items) (members row.now.group) ≡ true }
    ensures { result ≡ settled_row (problem_of inst.now) (groups_in graph.now.rows.items) row.now }
{
    match place_of(inst, graph, &row.group) {
        Some(place) => {
            let settled = graph.rows[place as usize];
            Row {
                group: row.group,
                low: settled.low,
                up: settled.up,
            }
        }
        None => unreachable!(),
    }
}

/// These rows, in their order, with the bounds of the settled graph's rows.
pub(crate) fn settled_by(
    alloc: Global,
    inst: &Instance,
    graph: &Graph,
    rows: &[Row],
) -> Result<Vec<Row>, AllocError>
    requires known { IsGraphOf inst.now graph.now }
    requires settled { graph.now.rows.items ≡ settled_rows (problem_of inst.now) graph.now.rows.items }
    requires there { HasGroupsOf rows.now graph.now.rows.items }
    ensures { IfOk result (λ v. v.items ≡ map (settled_row (problem_of inst.now) (groups_in graph.now.rows.items)) rows.now) }
{
    let mut settled = Vec::with_capacity(alloc, rows.len())?;
    for row in rows {
        settled.push(settled_one(inst, graph, row))?;
    }
    Ok(settled)
}
