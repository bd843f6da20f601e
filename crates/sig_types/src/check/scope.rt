//! What the links of a block are checked against: the names of its items, its switches and its uses. Made once a block,
//! after the names were found not to repeat, so that each end of a link takes a few look-ups however many items there are.
ghost use Rattle.std.specs.Prelude.{◌≡◌, ◌∷◌, ℕ, List, [], IfOk, OnOk};
ghost use Rattle.std.specs.Option.{option_or};
ghost use Rattle.std.specs.Str.{bytes_eq};
ghost use Rattle.indexmap.specs.IndexMap.{get};
ghost use Rattle.sig_types.specs.Breaches.{has, names_of, repeats, scope_of};
ghost use Rattle.sig_types.specs.Lookups.{used_block};
ghost use Rattle.sig_types.specs.Refused.{IsVerdict};
ghost use Rattle.sig_types.specs.Symbols.{item_names};

use crate::check::index::set_of;
use crate::check::names::take_names;
use crate::model::{Block, Used};
use crate::name::Name;
use crate::refusals::{Key, ModelFault};
use crate::spot::Spot;
use indexmap::{IndexMap, IndexSet};
use std::alloc::{AllocError, Global};

/// The names of a block, for look-up. Contracts see it as the block with its number.
#[derive(Drop)]
pub(crate) struct Scope<'a> {
    number: u64,
    block: &'a Block,
    /// Those of its items.
    names: IndexSet<Name>,
    switches: IndexSet<Name>,
    /// By the name of a use, that of the block that it uses.
    uses: IndexMap<Name, Name>,
}

impl<'a> std::marker::Model for Scope<'a> {
    ghost use Rattle.std.specs.Prelude.{◌≡◌, ℕ, List, []};
    ghost use Rattle.std.specs.Str.{bytes_eq};
    ghost use Rattle.indexmap.specs.IndexSet.{insert_all};
    ghost use Rattle.indexmap.specs.IndexMap.{get};
    ghost use Rattle.sig_types.specs.Breaches.{names_of, scope_of};
    ghost use Rattle.sig_types.specs.Lookups.{Numbered, used_block};
    ghost use Rattle.sig_types.specs.Symbols.{item_names};

    ghost Value = { Numbered };

    ghost view = { λ s. record { number = s.number; block = s.block.now } };

    ghost invariant = { λ s. (s.names.keys ≡ names_of (scope_of s.number s.block.now)) × (s.switches.keys ≡ insert_all bytes_eq [] s.block.now.switches) × ((name : List ℕ) → get bytes_eq s.uses name ≡ used_block s.block.now.uses name) × (s.names.keys ≡ item_names s.block.now) };
}

/// The names of all items, which share one scope. Looks for those that repeat.
fn names_in(alloc: Global, number: u64, block: &Block) -> Result<IndexSet<Name>, ModelFault>
    ensures names { IfOk result (λ names. names.keys ≡ names_of (scope_of number block.now)) }
    ensures items { IfOk result (λ names. names.keys ≡ item_names block.now) }
    ensures verdict { IsVerdict (repeats (scope_of number block.now)) result }
{
    let mut names = IndexSet::new(alloc);
    let spot = Spot::block(number);
    let ports = spot.at(Key::Ports);
    take_names(&mut names, block.ports.as_slice(), ports)?;
    let switches = spot.at(Key::Switches);
    take_names(&mut names, block.switches.as_slice(), switches)?;
    take_names(&mut names, block.parts.as_slice(), spot)?;
    take_names(&mut names, block.uses.as_slice(), spot)?;
    take_names(&mut names, block.points.as_slice(), spot)?;
    Ok(names)
}

/// Adds a use, unless one of its name is there.
fn add_use(uses: &mut IndexMap<Name, Name>, used: &Used) -> Result<(), AllocError>
    ensures { OnOk result ((name : List ℕ) → get bytes_eq uses.new name ≡ option_or (get bytes_eq uses.old name) (used_block (used.now ∷ []) name)) }
{
    if !uses.contains_key(&used.name) {
        uses.insert(used.name, used.block)?;
    }
    Ok(())
}

/// The blocks that are used, by the names of the uses.
fn used_blocks(alloc: Global, uses: &[Used]) -> Result<IndexMap<Name, Name>, AllocError>
    ensures { IfOk result (λ blocks. (name : List ℕ) → get bytes_eq blocks name ≡ used_block uses.now name) }
{
    let mut blocks = IndexMap::new(alloc);
    for used in uses {
        add_use(&mut blocks, used)?;
    }
    Ok(blocks)
}

impl<'a> Scope<'a> {
    /// Looks for names of items that repeat.
    pub fn of(alloc: Global, number: u64, block: &'a Block) -> Result<Scope<'a>, ModelFault>
        ensures scope { IfOk result (λ scope. scope ≡ record { number = number; block = block.now }) }
        ensures verdict { IsVerdict (repeats (scope_of number block.now)) result }
    {
        let names = names_in(alloc, number, block)?;
        let switches = set_of(alloc, block.switches.as_slice())?;
        let uses = used_blocks(alloc, block.uses.as_slice())?;
        Ok(Scope {
            number,
            block,
            names,
            switches,
            uses,
        })
    }

    /// What of it outlives the check: the names of the items, in order.
    pub fn into_names(self) -> IndexSet<Name>
        ensures { result.keys ≡ item_names self.entry.block }
    {
        self.names
    }

    pub fn number(&self) -> u64
        ensures { result ≡ self.now.number }
    {
        self.number
    }

    /// Whether the name is that of an item.
    pub fn has_item(&self, name: &Name) -> bool
        ensures { result ≡ has (names_of (scope_of self.now.number self.now.block)) name.now }
    {
        self.names.contains(name)
    }

    /// Whether the name is that of a switch. Looks nothing up in a block without switches, as most are.
    pub fn has_switch(&self, name: &Name) -> bool
        ensures { result ≡ has self.now.block.switches name.now }
    {
        if self.block.switches.len() == 0 {
            return false;
        }
        self.switches.contains(name)
    }

    /// The block of the use of this name, where it is a use. Looks nothing up in a block without uses.
    pub fn used_block(&self, name: &Name) -> Option<Name>
        ensures { result ≡ used_block self.now.block.uses name.now }
    {
        if self.block.uses.len() == 0 {
            return None;
        }
        self.uses.get(name).copied()
    }
}
