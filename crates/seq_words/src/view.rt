//! What a seat knows of the words. Values of these types stand in contracts alone: none is made, but
//! for `Terms`, which the table is told when it is made, and `Seen`, which a look answers.
use seq_inst::{Group, Instance};
use std::collections::LinkedList;
use std::snapshot::Snapshot;

/// Who sits here: a worker, the scribe with the number of places that it has published, or nobody any
/// more, since the seat was joined into another.
pub enum Role {
    Worker,
    Scribe(u64),
    Spent,
}

/// A place: whether it is known to be published, the first of its words of bits, and the low and the
/// up that were seen there, at first 0 and the greatest number.
pub struct Known {
    pub there: bool,
    pub bits: LinkedList<u64>,
    pub low: u64,
    pub up: u64,
}

/// The lists of an instance: weights by class, costs by test, and by test the classes that pass it.
pub struct Told {
    pub weights: LinkedList<u64>,
    pub costs: LinkedList<u32>,
    pub passes: LinkedList<Group>,
}

/// What a seat knows.
pub struct View {
    pub role: Role,
    pub told: Told,
    pub limit: u64,
    /// By place.
    pub known: LinkedList<Known>,
    /// By place, what another seat knew, until it is put together with what this one knows.
    pub heard: LinkedList<Known>,
    /// The places whose state word a load of its own found 0.
    pub free: LinkedList<u64>,
    /// The group that is being written, and how many of its words are stored.
    pub draft: LinkedList<u64>,
    pub stored: u64,
}

/// Of which instance the words are, and for how many groups.
#[derive(Drop)]
pub struct Terms {
    pub inst: Snapshot<Instance>,
    pub limit: u32,
}

/// What a look at a place found: no group yet, or a group with its bounds.
#[derive(Clone, Copy, Debug, PartialEq, Eq)]
pub enum Seen {
    Free,
    There { group: Group, low: u64, up: u64 },
}
