//! What a search knows. Each group that was met has a number, and beside the numbers stands what each
//! group counts. A group that was entered has a row, and beside the rows stands what is kept of each
//! group. So the sum of a test over what its parts count is two look-ups by number.
ghost use Rattle.std.specs.Prelude.{◌≡◌, [], IfOk};
ghost use Rattle.seq_inst.specs.Instances.{problem_of};
ghost use Rattle.seq_graph.specs.Known.{AreSound, IsGraphOf};

use crate::node::{Growth, Lists, Node};
use crate::numbers::Numbers;
use seq_inst::{Instance, Row};
use std::alloc::{AllocError, Global};

/// What a group counts for a low and for an up, and the place of its row, if it has one.
#[derive(Clone, Copy)]
pub struct Count {
    pub low: u64,
    /// `u64::MAX` where no upper bound is known.
    pub up: u64,
    pub place: Option<u32>,
}

/// The numbers of the groups, the entered groups with what is kept of each, and what each group counts.
#[derive(Drop)]
pub struct Graph {
    pub numbers: Numbers,
    /// The entered groups in the order of entering.
    pub rows: Vec<Row>,
    /// By place.
    pub nodes: Vec<Node>,
    /// By number.
    pub counts: Vec<Count>,
    /// For the groups whose tests are listed next, the last ones first.
    pub lists: Vec<Lists>,
    /// Whether the nodes' lists and the numbers take more memory while groups are looked at.
    pub growth: Growth,
}

impl Graph {
    /// Nothing is known yet. `grow` makes room for the groups that are entered.
    pub fn new(alloc: Global, inst: &Instance) -> Result<Graph, AllocError>
        ensures rows { IfOk result (λ s. s.rows.items ≡ []) }
        ensures known { IfOk result (IsGraphOf inst.now) }
        ensures sound { IfOk result (λ s. AreSound (problem_of inst.now) s.rows.items) }
    {
        let numbers = Numbers::new(alloc, inst)?;
        Ok(Graph {
            numbers,
            rows: Vec::new(alloc),
            nodes: Vec::new(alloc),
            counts: Vec::new(alloc),
            lists: Vec::new(alloc),
            growth: Growth::Free,
        })
    }
}
