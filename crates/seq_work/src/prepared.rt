//! All that a search by workers takes.
use crate::local::Local;
use seq_core::Places;
use seq_inst::{Instance, Row};
use seq_words::{Scribe, Seat, Words};

/// The words with their scribe, its index, and a seat for each worker.
#[derive(Drop)]
pub struct Prepared {
    pub words: Words,
    pub scribe: Scribe,
    pub index: Places,
    /// A copy of the instance that is searched.
    pub inst: Instance,
    /// So many groups may be entered.
    pub limit: u32,
    /// By worker.
    pub seats: Vec<Seat>,
    /// What each worker keeps, by worker.
    pub locals: Vec<Local>,
    /// Empty, with room for the rows at the end.
    pub into: Vec<Row>,
}
