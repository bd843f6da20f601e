//! The bounds of groups, looked up in settled rows.
ghost use Rattle.std.specs.Prelude.{◌≡◌, ◌^◌, ◌<◌, All, IfOk, IsSome, Some, length};
ghost use Rattle.std.specs.Option.{option_map};
ghost use Rattle.seq_theory.specs.Graph.{low, val};
ghost use Rattle.seq_theory.specs.Rows.{AreDistinct, row_for};
ghost use Rattle.seq_core.specs.RowsOf.{row_of as row_from, rows_of as rows_from};
ghost use Rattle.seq_inst.specs.Members.{members};
ghost use Rattle.seq_inst.specs.Instances.{problem_of};
ghost use Rattle.seq_core.specs.Tables.{placed_groups};
ghost use Rattle.seq_core.specs.Settled.{groups_in};
ghost use Rattle.seq_finish.specs.Outcomes.{IsSettled};

use seq_core::Places;
use seq_inst::{Group, Instance, Row, is_leaf};
use std::alloc::{AllocError, Global};

/// A lower bound and the cost of a right strategy.
#[derive(Clone, Copy)]
pub(crate) struct Bounds {
    pub(crate) low: u64,
    pub(crate) cost: u64,
}

/// The places of the rows' groups.
pub(crate) fn index_of(alloc: Global, rows: &[Row]) -> Result<Places, AllocError>
    requires distinct { AreDistinct (groups_in rows.now) }
    requires few { length rows.now < 2 ^ 32 }
    ensures { IfOk result (λ m. m.placed ≡ placed_groups 0 rows.now) }
{
    let mut places = Places::new(alloc, rows.len() as u32)?;
    for i in 0..rows.len() {
        places.add(&rows[i].group, i as u32);
    }
    Ok(places)
}

/// The group's row, if it has one.
fn row_at(rows: &[Row], places: &Places, group: &Group) -> Option<Row>
    requires { places.now.placed ≡ placed_groups 0 rows.now }
    ensures { option_map row_from result ≡ row_for (rows_from rows.now) (members group.now) }
{
    match places.find(group) {
        Some(place) => Some(rows[place as usize]),
        None => None,
    }
}

/// The value of the group over the entered groups: none where it was not entered.
pub(crate) fn value_of(inst: &Instance, rows: &[Row], places: &Places, group: &Group) -> Option<u64>
    requires placed { places.now.placed ≡ placed_groups 0 rows.now }
    requires settled { All (IsSettled (problem_of inst.now) (groups_in rows.now)) rows.now }
    ensures { result ≡ val (problem_of inst.now) (groups_in rows.now) (members group.now) }
{
    if is_leaf(inst, group) {
        return Some(0);
    }
    match row_at(rows, places, group) {
        Some(row) => Some(row.up),
        None => None,
    }
}

/// The low and the value of a group that has a value.
pub(crate) fn bounds_of(inst: &Instance, rows: &[Row], places: &Places, group: &Group) -> Bounds
    requires placed { places.now.placed ≡ placed_groups 0 rows.now }
    requires settled { All (IsSettled (problem_of inst.now) (groups_in rows.now)) rows.now }
    requires valued { IsSome (val (problem_of inst.now) (groups_in rows.now) (members group.now)) }
    ensures low { result.low ≡ low (problem_of inst.now) (groups_in rows.now) (members group.now) }
    ensures cost { val (problem_of inst.now) (groups_in rows.now) (members group.now) ≡ Some result.cost }
{
    if is_leaf(inst, group) {
        return Bounds { low: 0, cost: 0 };
    }
    match row_at(rows, places, group) {
        Some(row) => Bounds {
            low: row.low,
            cost: row.up,
        },
        None => unreachable!(),
    }
}
