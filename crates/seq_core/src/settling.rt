//! The best bounds that a set of entered groups gives. The rows are gone through by size, in an order that
//! is made once: a group's parts have fewer classes than it has, so when its turn comes their bounds are
//! final, and each group is looked at once. Raising a row to the most that the others allow then gives its
//! low, and capping it to the least gives its value. `lows` and `vals` work out each bound and each sum
//! anew; the graph of an engine settles its rows by what it keeps.
ghost use Rattle.std.specs.Prelude.{◌≡◌, ◌<◌, List, map, length, slice_index, Some, IfOk};
ghost use Rattle.seq_theory.specs.Graph.{low, val};
ghost use Rattle.seq_inst.specs.Instances.{problem_of};
ghost use Rattle.seq_huff.specs.Orders.{IsUpwardBy};
ghost use Rattle.seq_core.specs.RowsOf.{rows_of, AreFit};
ghost use Rattle.seq_core.specs.Changes.{new_row};
ghost use Rattle.seq_core.specs.Allowed.{tightened};
ghost use Rattle.seq_core.specs.Settled.{groups_in, AreGroups, settled_rows, sizes_of, IsBySize};

use crate::machine::Core;
use seq_huff::Scratch;
use seq_inst::{Instance, Row, count_of};
use std::alloc::{AllocError, Global};

/// The places of a list of sizes, by size upwards.
fn by_size(alloc: Global, sizes: &[u32]) -> Result<Vec<u32>, AllocError>
    ensures { IfOk result (λ v. IsUpwardBy (length sizes.now) (λ k. slice_index sizes.now k) v.items) }
{
    let Ok(count) = u32::try_from(sizes.len()) else {
        return Err(AllocError);
    };
    let mut places = Vec::with_capacity(alloc, sizes.len())?;
    for place in 0..count {
        places.push(place)?;
    }
    places.sort_unstable_by_key(|&place| sizes.get(place as usize).copied().unwrap_or(0));
    Ok(places)
}

/// How many classes the group of each row has.
fn sizes_in(alloc: Global, rows: &[Row]) -> Result<Vec<u32>, AllocError>
    ensures { IfOk result (λ v. v.items ≡ sizes_of rows.now) }
{
    rows.iter().map(|row| count_of(&row.group)).collect(alloc)
}

/// The places of the rows, from those of the smallest groups on: the order in which rows are settled.
pub fn smallest_first(alloc: Global, rows: &[Row]) -> Result<Vec<u32>, AllocError>
    ensures { IfOk result (λ v. IsBySize rows.now v.items) }
{
    let sizes = sizes_in(alloc, rows)?;
    by_size(alloc, sizes.as_slice())
}

/// A core of the rows' groups, of which nothing is known.
fn entered_from(alloc: Global, inst: &Instance, rows: &[Row]) -> Result<Core, AllocError>
    requires { AreGroups (problem_of inst.now) rows.now }
    ensures { IfOk result (λ c. c.rows ≡ map (λ r. new_row r.group) rows.now) }
{
    let _ = inst;
    let Ok(room) = u32::try_from(rows.len()) else {
        return Err(AllocError);
    };
    let mut core = Core::with_room(alloc, room)?;
    for row in rows {
        core.add(&row.group);
    }
    Ok(core)
}

/// Raises the row at the place to the most, and caps it to the least, that the rows allow.
fn settle_row(scratch: &mut Scratch, inst: &Instance, core: &mut Core, place: u32)
    requires fit { AreFit (problem_of inst.now) (rows_of core.old.rows) }
    requires there { place < length core.old.rows }
    ensures { core.new ≡ record core.old { rows = tightened (problem_of inst.now) core.old.rows place } }
{
    let low = core.most_low(scratch, inst, place);
    let up = core.least_up(scratch, inst, place);
    core.raise_to(place, low);
    core.cap_to(place, up);
}

/// A core of the rows' groups with their lows and values.
fn settled(
    alloc: Global,
    scratch: &mut Scratch,
    inst: &Instance,
    rows: &[Row],
) -> Result<Core, AllocError>
    requires { AreGroups (problem_of inst.now) rows.now }
    ensures { IfOk result (λ c. c.rows ≡ settled_rows (problem_of inst.now) rows.now) }
{
    let mut core = entered_from(alloc, inst, rows)?;
    let order = smallest_first(alloc, rows)?;
    for turn in 0..order.len() {
        settle_row(scratch, inst, &mut core, order[turn]);
    }
    Ok(core)
}

/// The lows of the rows.
fn lows_in(alloc: Global, rows: &[Row]) -> Result<Vec<u64>, AllocError>
    ensures { IfOk result (λ v. v.items ≡ map (λ r. r.low) rows.now) }
{
    rows.iter().map(|row| row.low).collect(alloc)
}

/// The ups of the rows.
fn ups_in(alloc: Global, rows: &[Row]) -> Result<Vec<u64>, AllocError>
    ensures { IfOk result (λ v. v.items ≡ map (λ r. r.up) rows.now) }
{
    rows.iter().map(|row| row.up).collect(alloc)
}

/// The low of each row's group, the rows' groups being the entered ones.
pub fn lows(
    alloc: Global,
    scratch: &mut Scratch,
    inst: &Instance,
    rows: &[Row],
) -> Result<Vec<u64>, AllocError>
    requires { AreGroups (problem_of inst.now) rows.now }
    ensures { IfOk result (λ v. v.items ≡ map (low (problem_of inst.now) (groups_in rows.now)) (groups_in rows.now)) }
{
    let core = settled(alloc, scratch, inst, rows)?;
    let lows = lows_in(alloc, core.rows())?;
    Ok(lows)
}

/// The value of each row's group, the rows' groups being the entered ones: each has one.
pub fn vals(
    alloc: Global,
    scratch: &mut Scratch,
    inst: &Instance,
    rows: &[Row],
) -> Result<Vec<u64>, AllocError>
    requires { AreGroups (problem_of inst.now) rows.now }
    ensures { IfOk result (λ v. map (λ n. Some n) v.items ≡ map (val (problem_of inst.now) (groups_in rows.now)) (groups_in rows.now)) }
{
    let core = settled(alloc, scratch, inst, rows)?;
    let ups = ups_in(alloc, core.rows())?;
    Ok(ups)
}
