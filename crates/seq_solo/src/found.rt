//! What a search ends with.
use seq_graph::Graph;
use seq_inst::{Group, Row};

/// The entered groups in the order of entering, and the group that found no room, if there is one.
#[derive(Drop)]
pub struct Found {
    pub rows: Vec<Row>,
    pub missed: Option<Group>,
}

/// What a walk knows at its end, and the group that found no room, if there is one.
#[derive(Drop)]
pub struct Walked {
    pub graph: Graph,
    pub missed: Option<Group>,
}
