//! A worker backs a group up: what the group's tests allow goes to the shared words, and the group hears what
//! they answer. This is the larger low and the lesser up that any worker has found.
ghost use Rattle.std.specs.Prelude.{◌≡◌, ◌<◌, length};
ghost use Rattle.seq_inst.specs.Members.{members};
ghost use Rattle.seq_inst.specs.Instances.{problem_of};
ghost use Rattle.seq_graph.specs.Known.{Narrows, IsClosedAt, group_at};
ghost use Rattle.seq_graph.specs.Steps.{ClosesBelow};
ghost use Rattle.seq_words.specs.Knowledge.{Covers};
ghost use Rattle.seq_words.specs.Seats.{IsOf};
ghost use Rattle.seq_work.specs.Works.{Ready};

use crate::local::Local;
use seq_graph::{Bounds, backed_up, hear};
use seq_inst::Instance;
use seq_words::{Seat, Words, knowing_more_allows, lower_cap, raise};

/// A group's low and up go to the words, and what these answer comes back to its row. Where both parts by the
/// test of least sum are closed, so is the group.
pub(crate) fn back_up(
    words: &Words,
    inst: &Instance,
    seat: &mut Seat,
    local: &mut Local,
    node: usize,
)
    requires ready { Ready inst.now words.now seat.old local.old }
    requires node { node < length local.old.graph.rows.items }
    ensures of { IsOf words.now seat.new }
    ensures covers { Covers seat.new.view seat.old.view }
    ensures ready { Ready inst.now words.now seat.new local.new }
    ensures narrows { Narrows local.old.graph.rows.items local.new.graph.rows.items }
    ensures closes { ClosesBelow (problem_of inst.now) local.old.graph.rows.items (members (group_at local.old.graph.rows.items node)) → IsClosedAt local.new.graph.rows.items node }
{
    knowing_more_allows();
    let bounds = backed_up(inst, &mut local.graph, node);
    let place = local.places[node];
    let low = raise(words, seat, place, bounds.low);
    let up = lower_cap(words, seat, place, bounds.up);
    hear(inst, &mut local.graph, node, Bounds { low, up });
}
