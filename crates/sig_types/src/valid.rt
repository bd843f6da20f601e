//! A model that was checked. It is made by `Model::check` alone, so whoever holds one may rely on the absence of every
//! breach, and on at least one mode: a model that declares none is kept with the one mode `normal`. It keeps the names
//! by number that the check was made with.
ghost use Rattle.std.specs.Prelude.{◌≡◌, ◌<◌, ◌≤◌, [], length, position, slice_index_or};
ghost use Rattle.std.specs.Str.{bytes_eq};
ghost use Rattle.sig_types.specs.Breaches.{block_names, breaches};
ghost use Rattle.sig_types.specs.Symbols.{items_by_block, AreSymbolsOf};

use crate::model::Model;
use crate::name::Name;
use crate::symbols::Symbols;

/// A model without a breach, which contracts see as that model.
#[derive(Drop)]
pub struct Valid {
    model: Model,
    symbols: Symbols,
}

impl std::marker::Model for Valid {
    ghost use Rattle.std.specs.Prelude.{◌≡◌, ◌≤◌, [], length};
    ghost use Rattle.sig_types.specs.declared.model.Model.{Model};
    ghost use Rattle.sig_types.specs.Breaches.{breaches};
    ghost use Rattle.sig_types.specs.Symbols.{AreSymbolsOf};

    ghost Value = { Model };

    ghost view = { λ v. v.model };

    ghost invariant = { λ v. (breaches v.model ≡ []) × (1 ≤ length v.model.modes) × AreSymbolsOf v.model v.symbols };
}

impl Valid {
    pub(crate) fn of(model: Model, symbols: Symbols) -> Valid
        requires sound { breaches model ≡ [] }
        requires modes { 1 ≤ length model.modes }
        requires symbols { AreSymbolsOf model symbols }
        ensures { result ≡ model }
    {
        Valid { model, symbols }
    }

    /// The model itself; its `modes` are not empty.
    pub fn model(&self) -> &Model
        ensures same { result.now ≡ self.now }
        ensures sound { breaches self.now ≡ [] }
        ensures modes { 1 ≤ length self.now.modes }
    {
        &self.model
    }

    /// The number of the signal of this name, in one look-up.
    pub fn signal_number(&self, name: &Name) -> Option<usize>
        ensures { result ≡ position (bytes_eq name.now) self.now.signals }
    {
        self.symbols.signals.get_index_of(name)
    }

    /// The number of the mode of this name, in one look-up.
    pub fn mode_number(&self, name: &Name) -> Option<usize>
        ensures { result ≡ position (bytes_eq name.now) self.now.modes }
    {
        self.symbols.modes.get_index_of(name)
    }

    /// How many items a block has: ports, switches, parts, uses and points.
    pub fn item_count(&self, block: usize) -> usize
        requires { block < length self.now.blocks }
        ensures { result ≡ length (slice_index_or (items_by_block self.now) block []) }
    {
        self.symbols.items[block].len()
    }

    /// The number of the item of this name in a block, whose ports, switches, parts, uses and points are counted in this
    /// order; in one look-up.
    pub fn item_number(&self, block: usize, name: &Name) -> Option<usize>
        requires { block < length self.now.blocks }
        ensures { result ≡ position (bytes_eq name.now) (slice_index_or (items_by_block self.now) block []) }
    {
        self.symbols.items[block].get_index_of(name)
    }

    /// The number of the block of this name, in one look-up.
    pub fn block_number(&self, name: &Name) -> Option<usize>
        ensures { result ≡ position (bytes_eq name.now) (block_names self.now) }
    {
        self.symbols.blocks.get_index_of(name)
    }
}
