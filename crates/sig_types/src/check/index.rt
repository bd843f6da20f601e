//! What the blocks of a model are checked against: its signals, modes and blocks by name, and the ports of each block.
//! All of it is made once, so that each look-up of a name takes one step.
ghost use Rattle.std.specs.Prelude.{◌≡◌, [], codes, map, is_some, position, IfOk, OnOk};
ghost use Rattle.std.specs.Str.{bytes_eq};
ghost use Rattle.indexmap.specs.IndexSet.{insert_all};
ghost use Rattle.sig_types.specs.Breaches.{block_names, has, has_port, known_modes, or_normal, repeated_at_top};
ghost use Rattle.sig_types.specs.Refused.{IsVerdict};
ghost use Rattle.sig_types.specs.Symbols.{items_by_block, AreSymbolsOf};

use crate::check::names::number_names;
use crate::model::{Block, Model};
use crate::name::Name;
use crate::refusals::{Key, ModelFault};
use crate::spot::Spot;
use crate::symbols::Symbols;
use indexmap::IndexSet;
use std::alloc::{AllocError, Global};

/// The names of a model, for look-up. Contracts see it as that model.
#[derive(Drop)]
pub(crate) struct Index<'a> {
    model: &'a Model,
    signals: IndexSet<Name>,
    modes: IndexSet<Name>,
    blocks: IndexSet<Name>,
    /// By block.
    ports: Vec<IndexSet<Name>>,
}

impl<'a> std::marker::Model for Index<'a> {
    ghost use Rattle.std.specs.Prelude.{◌≡◌, [], map};
    ghost use Rattle.std.specs.Str.{bytes_eq};
    ghost use Rattle.indexmap.specs.IndexSet.{insert_all};
    ghost use Rattle.sig_types.specs.declared.model.Model.{Model};
    ghost use Rattle.sig_types.specs.Breaches.{block_names, known_modes};

    ghost Value = { Model };

    ghost view = { λ i. i.model.now };

    ghost invariant = { λ i. (i.signals.keys ≡ i.model.now.signals) × (i.modes.keys ≡ known_modes i.model.now) × (i.blocks.keys ≡ block_names i.model.now) × (map (λ ports. ports.keys) i.ports.items ≡ map (λ block. insert_all bytes_eq [] block.ports) i.model.now.blocks) };
}

/// The one mode of a model that declares none.
pub(crate) fn normal() -> Name
    ensures { result ≡ codes "normal" }
{
    match Name::of("normal") {
        Some(name) => name,
        None => unreachable!(),
    }
}

/// Makes `normal` the one mode, where there is none.
fn add_normal(modes: &mut IndexSet<Name>) -> Result<(), AllocError>
    ensures { OnOk result (modes.new.keys ≡ or_normal modes.old.keys) }
{
    if modes.is_empty() {
        modes.insert(normal())?;
    }
    Ok(())
}

/// The names as a set.
pub(crate) fn set_of(alloc: Global, names: &[Name]) -> Result<IndexSet<Name>, AllocError>
    ensures { IfOk result (λ set. set.keys ≡ insert_all bytes_eq [] names.now) }
{
    let mut set = IndexSet::new(alloc);
    for name in names {
        set.insert(*name)?;
    }
    Ok(set)
}

/// The ports of each block as a set.
fn ports_of(alloc: Global, blocks: &[Block]) -> Result<Vec<IndexSet<Name>>, AllocError>
    ensures { IfOk result (λ sets. map (λ ports. ports.keys) sets.items ≡ map (λ block. insert_all bytes_eq [] block.ports) blocks.now) }
{
    let mut sets = Vec::with_capacity(alloc, blocks.len())?;
    for block in blocks {
        sets.push(set_of(alloc, block.ports.as_slice())?)?;
    }
    Ok(sets)
}

impl<'a> Index<'a> {
    /// Looks for names that repeat among the signals, the modes and the blocks.
    pub fn of(alloc: Global, model: &'a Model) -> Result<Index<'a>, ModelFault>
        ensures index { IfOk result (λ index. index ≡ model.now) }
        ensures verdict { IsVerdict (repeated_at_top model.now) result }
    {
        let document = Spot::document();
        let signals = number_names(alloc, model.signals.as_slice(), document.at(Key::Signals))?;
        let mut modes = number_names(alloc, model.modes.as_slice(), document.at(Key::Modes))?;
        let blocks = number_names(alloc, model.blocks.as_slice(), document)?;
        add_normal(&mut modes)?;
        let ports = ports_of(alloc, model.blocks.as_slice())?;
        Ok(Index {
            model,
            signals,
            modes,
            blocks,
            ports,
        })
    }

    /// What of it outlives the check, with the items of each block.
    pub fn into_symbols(self, items: Vec<IndexSet<Name>>) -> Symbols
        requires { map (λ names. names.keys) items.items ≡ items_by_block self }
        ensures { AreSymbolsOf self.entry result }
    {
        Symbols {
            signals: self.signals,
            modes: self.modes,
            blocks: self.blocks,
            items,
        }
    }

    pub fn signals(&self) -> &IndexSet<Name>
        ensures { result.now.keys ≡ self.now.signals }
    {
        &self.signals
    }

    /// The modes, of which there is at least `normal`.
    pub fn modes(&self) -> &IndexSet<Name>
        ensures { result.now.keys ≡ known_modes self.now }
    {
        &self.modes
    }

    /// The number of the block of this name.
    pub fn block_number(&self, name: &Name) -> Option<usize>
        ensures number { result ≡ position (bytes_eq name.now) (block_names self.now) }
        ensures found { is_some result ≡ has (block_names self.now) name.now }
    {
        self.blocks.get_index_of(name)
    }

    /// Whether the block of the name has the port.
    pub fn has_port(&self, block: &Name, port: &Name) -> bool
        ensures { result ≡ has_port self.now.blocks block.now port.now }
    {
        match self.blocks.get_index_of(block) {
            Some(number) => self.ports[number].contains(port),
            None => false,
        }
    }
}
