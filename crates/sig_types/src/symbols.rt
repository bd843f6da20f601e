//! The names of a model by number: its symbol table. The check makes it, and a valid model keeps it, so that whoever
//! works on the model asks for a number and looks no name up anew.

use crate::name::Name;
use indexmap::IndexSet;

/// The signals, the modes and the blocks of a model, and the items of each block, each numbered by its place.
#[derive(Drop)]
pub(crate) struct Symbols {
    pub signals: IndexSet<Name>,
    /// The one mode `normal`, where the model declares none.
    pub modes: IndexSet<Name>,
    pub blocks: IndexSet<Name>,
    /// By block: its ports, switches, parts, uses and points, one after another.
    pub items: Vec<IndexSet<Name>>,
}
