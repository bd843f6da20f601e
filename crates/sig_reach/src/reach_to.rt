//! Where paths lead to some nodes in one mode of a flat model. Each of them gets a free pass and one for all signals,
//! and no other node does.

ghost use Rattle.std.specs.Prelude.{◌≡◌, ℕ, ◌<◌, ◌↔◌, true, length, IfOk, IsTrue, Some};
ghost use Rattle.sig_types.specs.Sets.{has_bit};
ghost use Rattle.sig_reach.specs.Marks.{is_marked};
ghost use Rattle.sig_reach.specs.Columns.{IsColumn};
ghost use Rattle.sig_reach.specs.Paths.{HasSignalPath, HasFreePath};
ghost use Rattle.sig_reach.specs.declared.column.Column.{Column};

use crate::column::{Column, column_to};
use crate::inward::Inward;
use sig_flat::Flat;
use std::alloc::{AllocError, Global};
use std::marker::Model;
use std::snapshot::Snapshot;

/// Whether paths lead from each node to each one that is wanted.
#[derive(Drop)]
pub struct ReachTo {
    /// For each node that is wanted, its column.
    columns: Vec<Option<Column>>,
    /// For each node whether it is wanted.
    wanted: Vec<bool>,
    mode: u32,
    of: Snapshot<Flat>,
}

impl Model for ReachTo {
    ghost use Rattle.std.specs.Prelude.{ℕ, ◌≡◌, true, length};
    ghost use Rattle.sig_reach.specs.Graphs.{Targets};
    ghost use Rattle.sig_reach.specs.Marks.{is_marked};
    ghost use Rattle.sig_reach.specs.Columns.{HasColumn};

    ghost Value = { Targets };

    ghost view = { λ r. record { flat = r.of.value; mode = r.mode; wanted = r.wanted.items } };

    ghost invariant = { λ r. (length r.columns.items ≡ length r.of.value.nodes) × (length r.wanted.items ≡ length r.of.value.nodes) × ((v : ℕ) → is_marked r.wanted.items v ≡ true → HasColumn r.of.value r.mode r.columns.items v) };
}

/// The column of a node that is wanted.
fn column_where(
    alloc: Global,
    inward: &Inward<'_>,
    wanted: bool,
    node: u32,
) -> Result<Option<Column>, AllocError>
    requires { node < length inward.now.flat.nodes }
    ensures { IfOk result (λ found. IsTrue wanted → (column : Column) × (found ≡ Some column) × IsColumn inward.now.flat inward.now.mode node column.carried.items column.joined.items) }
{
    if wanted {
        let column = column_to(alloc, inward, node)?;
        Ok(Some(column))
    } else {
        Ok(None)
    }
}

/// Where paths lead in the mode to the nodes that are wanted, of which there is a mark for each node. It costs two
/// passes for each node that is wanted, and a look at each link.
pub fn reaches_to(
    alloc: Global,
    flat: &Flat,
    mode: u32,
    wanted: Vec<bool>,
) -> Result<ReachTo, AllocError>
    requires mode { mode < length flat.now.modes }
    requires long { length wanted.items ≡ length flat.now.nodes }
    ensures { IfOk result (λ reach. (reach.flat ≡ flat.now) × (reach.mode ≡ mode) × (reach.wanted ≡ wanted.items)) }
{
    let inward = Inward::of(alloc, flat, mode)?;
    let mut columns = Vec::with_capacity(alloc, inward.nodes())?;
    for node in 0..wanted.len() {
        let column = column_where(alloc, &inward, wanted[node], node as u32)?;
        columns.push(column)?;
    }
    Ok(ReachTo {
        columns,
        wanted,
        mode,
        of: Snapshot::of(flat),
    })
}

impl ReachTo {
    /// The signals for which a path leads from the one node to the other, as bits.
    pub fn carried(&self, from: u32, to: u32) -> u64
        requires from { from < length self.now.flat.nodes }
        requires to { is_marked self.now.wanted to ≡ true }
        ensures { (s : ℕ) → s < 64 → (has_bit result s ≡ true) ↔ HasSignalPath self.now.flat self.now.mode s from to }
    {
        match &self.columns[to as usize] {
            Some(column) => column.carried[from as usize],
            None => unreachable!(),
        }
    }

    /// Whether a path for the signal leads from the one node to the other.
    pub fn carries(&self, from: u32, signal: u32, to: u32) -> bool
        requires from { from < length self.now.flat.nodes }
        requires signal { signal < 64 }
        requires to { is_marked self.now.wanted to ≡ true }
        ensures { IsTrue result ↔ HasSignalPath self.now.flat self.now.mode signal from to }
    {
        (self.carried(from, to) >> signal) & 1 == 1
    }

    /// Whether a free path leads from the one node to the other.
    pub fn joins(&self, from: u32, to: u32) -> bool
        requires from { from < length self.now.flat.nodes }
        requires to { is_marked self.now.wanted to ≡ true }
        ensures { IsTrue result ↔ HasFreePath self.now.flat self.now.mode from to }
    {
        match &self.columns[to as usize] {
            Some(column) => column.joined[from as usize],
            None => unreachable!(),
        }
    }
}
