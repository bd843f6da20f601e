//! What a worker keeps for itself.
use seq_graph::Graph;

/// A worker's number, what it knows of groups, and where its rows stand in the shared words.
#[derive(Drop)]
pub struct Local {
    pub number: u32,
    pub graph: Graph,
    /// By row of the graph, the place in the words that has its group.
    pub places: Vec<u32>,
}
