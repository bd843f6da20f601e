//! Where a group stands among the rows. It is found by its number: a group without a number has no row.
ghost use Rattle.std.specs.Prelude.{◌≡◌, false, IfSome, IfNone};
ghost use Rattle.seq_theory.specs.Graph.{is_entered};
ghost use Rattle.seq_inst.specs.Members.{members};
ghost use Rattle.seq_core.specs.Settled.{groups_in};
ghost use Rattle.seq_graph.specs.Known.{IsGraphOf};
ghost use Rattle.seq_graph.specs.Behind.{IsPlaceOf};

use crate::graph::Graph;
use seq_inst::{Group, Instance};

/// The place of the group's row, if it has one.
pub fn place_of(inst: &Instance, graph: &Graph, group: &Group) -> Option<u32>
    requires { IsGraphOf inst.now graph.now }
    ensures found { IfSome result (IsPlaceOf graph.now.rows.items (members group.now)) }
    ensures none { IfNone result (is_entered (groups_in graph.now.rows.items) (members group.now) ≡ false) }
{
    let _ = inst;
    match graph.numbers.find(group) {
        Some(number) => graph.counts[number as usize].place,
        None => None,
    }
}
