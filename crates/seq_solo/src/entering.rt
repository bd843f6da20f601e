//! A group is entered on one thread: memory is taken for one group at a time, as a search needs it.
ghost use Rattle.std.specs.Prelude.{◌≡◌, ◌<◌, ◌++◌, ◌∷◌, [], false, length, IfOk};
ghost use Rattle.seq_theory.specs.Graph.{is_entered, IsReal};
ghost use Rattle.seq_theory.specs.Rows.{groups_of, no_value};
ghost use Rattle.seq_inst.specs.Instances.{problem_of};
ghost use Rattle.seq_inst.specs.Members.{members};
ghost use Rattle.seq_core.specs.RowsOf.{rows_of as rows_from};
ghost use Rattle.seq_graph.specs.Known.{AreSound, Narrows, IsGraphOf};

use seq_graph::{Graph, enter, grow};
use seq_inst::{Group, Instance};
use std::alloc::{AllocError, Global};

/// Makes room for a group, and enters it.
pub(crate) fn enter_one(
    alloc: Global,
    inst: &Instance,
    graph: &mut Graph,
    group: &Group,
) -> Result<(), AllocError>
    requires known { IsGraphOf inst.now graph.old }
    requires real { IsReal (problem_of inst.now) (members group.now) }
    requires new { is_entered (groups_of (rows_from graph.old.rows.items)) (members group.now) ≡ false }
    requires few { length graph.old.rows.items < 32768 }
    ensures known { IfOk result (λ _. IsGraphOf inst.now graph.new) }
    ensures narrows { IfOk result (λ _. Narrows (graph.old.rows.items ++ record { group = group.now; low = 0; up = no_value } ∷ []) graph.new.rows.items) }
    ensures sound { IfOk result (λ _. AreSound (problem_of inst.now) graph.old.rows.items → AreSound (problem_of inst.now) graph.new.rows.items) }
{
    grow(alloc, inst, graph)?;
    enter(inst, graph, group);
    Ok(())
}
