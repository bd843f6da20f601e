//! A worker gives a group a row. The lock has told its place. Where the words have the group closed, another worker has
//! found its least cost, and its row gets that alone: a closed group needs no list of tests and no cost of greedy's.
//! Else the worker's graph lists it, greedy's cost goes to the words as a cap, and the group is backed up at once.
ghost use Rattle.std.specs.Prelude.{◌≡◌, ◌<◌, false, length, IfSome, [], ◌∷◌, ◌++◌};
ghost use Rattle.seq_theory.specs.Graph.{is_entered, IsReal};
ghost use Rattle.seq_theory.specs.Rows.{groups_of, no_value};
ghost use Rattle.seq_theory.specs.Greedy.{greedy_cost};
ghost use Rattle.seq_inst.specs.Members.{members};
ghost use Rattle.seq_inst.specs.Instances.{problem_of};
ghost use Rattle.seq_core.specs.RowsOf.{rows_of as rows_from};
ghost use Rattle.seq_graph.specs.Known.{Narrows};
ghost use Rattle.seq_words.specs.Knowledge.{told_of, Covers, IsKnown, AreAlone, group_at};
ghost use Rattle.seq_words.specs.Seats.{IsOf};
ghost use Rattle.seq_work.specs.Works.{AreSeenAt, Ready};

use crate::backing::back_up;
use crate::local::Local;
use seq_graph::{Bounds, GREATEST_COST, add, learn};
use seq_inst::{Group, Instance};
use seq_words::{Seat, Seen, Words, lower_cap, see};

/// Lists a group that has this place in the words, and caps it by what greedy costs.
fn list(
    words: &Words,
    inst: &Instance,
    seat: &mut Seat,
    local: &mut Local,
    group: &Group,
    place: u32,
)
    requires ready { Ready inst.now words.now seat.old local.old }
    requires there { IsKnown place seat.old.view }
    requires group { group_at place seat.old.view ≡ members group.now }
    requires real { IsReal (problem_of inst.now) (members group.now) }
    requires new { is_entered (groups_of (rows_from local.old.graph.rows.items)) (members group.now) ≡ false }
    ensures of { IsOf words.now seat.new }
    ensures covers { Covers seat.new.view seat.old.view }
    ensures ready { Ready inst.now words.now seat.new local.new }
    ensures rows { local.new.graph.rows.items ≡ local.old.graph.rows.items ++ record { group = group.now; low = 0; up = greedy_cost (problem_of inst.now) (members group.now) } ∷ [] }
    ensures room { length local.old.graph.rows.items < words.now.limit }
{
    let node = local.graph.rows.len();
    add(inst, &mut local.graph, group);
    local.places.push_reserved(place);
    lower_cap(words, seat, place, local.graph.rows[node].up);
}

/// The bounds of the group at the place, where the words have it closed.
fn seen_closed(
    words: &Words,
    inst: &Instance,
    seat: &mut Seat,
    group: &Group,
    place: u32,
) -> Option<Bounds>
    requires seat { IsOf words.now seat.old }
    requires told { words.now.told ≡ told_of inst.now }
    requires there { IsKnown place seat.old.view }
    requires group { group_at place seat.old.view ≡ members group.now }
    ensures of { IsOf words.now seat.new }
    ensures covers { Covers seat.new.view seat.old.view }
    ensures alone { AreAlone seat.new.view }
    ensures seen { IfSome result (AreSeenAt (problem_of inst.now) seat.new.view place (members group.now)) }
{
    let _ = inst;
    let _ = group;
    match see(words, seat, place) {
        Seen::There { group: _, low, up } if low == up && up <= GREATEST_COST => {
            Some(Bounds { low, up })
        }
        _ => None,
    }
}

/// Gives a group a row with the bounds that the seat has seen at its place.
fn take_over(
    words: &Words,
    inst: &Instance,
    seat: &Seat,
    local: &mut Local,
    group: &Group,
    place: u32,
    bounds: Bounds,
)
    requires ready { Ready inst.now words.now seat.now local.old }
    requires there { IsKnown place seat.now.view }
    requires group { group_at place seat.now.view ≡ members group.now }
    requires real { IsReal (problem_of inst.now) (members group.now) }
    requires new { is_entered (groups_of (rows_from local.old.graph.rows.items)) (members group.now) ≡ false }
    requires seen { AreSeenAt (problem_of inst.now) seat.now.view place (members group.now) bounds }
    ensures ready { Ready inst.now words.now seat.now local.new }
    ensures rows { local.new.graph.rows.items ≡ local.old.graph.rows.items ++ record { group = group.now; low = bounds.low; up = bounds.up } ∷ [] }
    ensures room { length local.old.graph.rows.items < words.now.limit }
{
    let _ = words;
    let _ = seat;
    learn(inst, &mut local.graph, group, bounds);
    local.places.push_reserved(place);
}

/// Gives a group that has this place in the words a row: with its least cost where that is known, else with what its
/// tests allow.
pub(crate) fn take_in(
    words: &Words,
    inst: &Instance,
    seat: &mut Seat,
    local: &mut Local,
    group: &Group,
    place: u32,
)
    requires ready { Ready inst.now words.now seat.old local.old }
    requires there { IsKnown place seat.old.view }
    requires group { group_at place seat.old.view ≡ members group.now }
    requires real { IsReal (problem_of inst.now) (members group.now) }
    requires new { is_entered (groups_of (rows_from local.old.graph.rows.items)) (members group.now) ≡ false }
    ensures of { IsOf words.now seat.new }
    ensures covers { Covers seat.new.view seat.old.view }
    ensures ready { Ready inst.now words.now seat.new local.new }
    ensures narrows { Narrows (local.old.graph.rows.items ++ record { group = group.now; low = 0; up = no_value } ∷ []) local.new.graph.rows.items }
    ensures room { length local.old.graph.rows.items < words.now.limit }
{
    match seen_closed(words, inst, seat, group, place) {
        Some(bounds) => take_over(words, inst, seat, local, group, place, bounds),
        None => {
            let node = local.graph.rows.len();
            list(words, inst, seat, local, group, place);
            back_up(words, inst, seat, local, node);
        }
    }
}
