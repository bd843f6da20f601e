//! The look for breaches of a model, in their order: counts, names of the document that repeat, each block, and the top.
//! Every function of this module tells the first breach of its part of that order, and a later part is looked at only
//! where the earlier ones have none. Names are looked up in sets that are made once, so that all of it takes a few
//! look-ups for each name of the model.
ghost use Rattle.std.specs.Prelude.{◌≡◌, [], map, IfOk, IfErr};
ghost use Rattle.sig_types.specs.Breaches.{breaches, count_breaches, indexed_breaches, known_modes, or_normal, too_many};
ghost use Rattle.sig_types.specs.Refused.{IsVerdict, TellsFirst};
ghost use Rattle.sig_types.specs.Symbols.{items_by_block, AreSymbolsOf};

mod block;
mod index;
mod link;
mod names;
mod scope;

use crate::list::List;
use crate::model::Model;
use crate::name::Name;
use crate::refusals::{Code, Counted, Key, ModelFault, Place};
use crate::spot::Spot;
use crate::symbols::Symbols;
use crate::valid::Valid;
use block::check_blocks;
use index::{Index, normal};
use indexmap::IndexSet;
use names::refuse_if;
use std::alloc::{AllocError, Global};

/// A set of signals is the bits of one word.
const MOST_SIGNALS: usize = 64;

/// A set of modes is the bits of half a word.
const MOST_MODES: usize = 32;

const MOST_BLOCKS: usize = 1024;

fn check_count(counted: Counted, limit: usize, count: usize) -> Result<(), ModelFault>
    ensures { IsVerdict (too_many counted limit count) result }
{
    refuse_if(limit < count, Code::M13, Place::Count(counted))
}

/// Signals, then modes, then blocks are not too many.
fn check_counts(model: &Model) -> Result<(), ModelFault>
    ensures { IsVerdict (count_breaches model.now) result }
{
    check_count(Counted::Signals, MOST_SIGNALS, model.signals.len())?;
    check_count(Counted::Modes, MOST_MODES, model.modes.len())?;
    check_count(Counted::Blocks, MOST_BLOCKS, model.blocks.len())
}

/// The blocks, and then the top. Gives for each block the names of its items.
fn check_indexed(
    alloc: Global,
    index: &Index,
    model: &Model,
) -> Result<Vec<IndexSet<Name>>, ModelFault>
    requires { index.now ≡ model.now }
    ensures verdict { IsVerdict (indexed_breaches model.now) result }
    ensures items { IfOk result (λ items. map (λ names. names.keys) items.items ≡ items_by_block model.now) }
{
    let items = check_blocks(alloc, index, model.blocks.as_slice())?;
    let top = Spot::document().at(Key::Top).place();
    refuse_if(index.block_number(&model.top).is_none(), Code::M08, top)?;
    Ok(items)
}

fn check_model(alloc: Global, model: &Model) -> Result<Symbols, ModelFault>
    ensures verdict { IsVerdict (breaches model.now) result }
    ensures symbols { IfOk result (AreSymbolsOf model.now) }
{
    check_counts(model)?;
    let index = Index::of(alloc, model)?;
    let items = check_indexed(alloc, &index, model)?;
    Ok(index.into_symbols(items))
}

/// The modes that a model is kept with.
fn kept_modes(alloc: Global, modes: List<Name>) -> Result<List<Name>, AllocError>
    ensures { IfOk result (λ kept. kept ≡ or_normal modes) }
{
    if modes.len() > 0 {
        return Ok(modes);
    }
    let mut kept = List::new(alloc);
    kept.push(normal())?;
    Ok(kept)
}

/// A model in which no breach was found, as a valid one, with its names by number.
fn keep(alloc: Global, model: Model, symbols: Symbols) -> Result<Valid, AllocError>
    requires sound { breaches model ≡ [] }
    requires symbols { AreSymbolsOf model symbols }
    ensures { IfOk result (λ valid. valid ≡ record model { modes = known_modes model }) }
{
    let Model {
        good,
        top,
        signals,
        modes,
        blocks,
    } = model;
    let kept = Model {
        good,
        top,
        signals,
        modes: kept_modes(alloc, modes)?,
        blocks,
    };
    Ok(Valid::of(kept, symbols))
}

impl Model {
    /// The model as a valid one, with the one mode `normal` where it declares none; else the first breach, in the
    /// order: counts, names of the document that repeat, each block, and the top. Takes a few look-ups for each name
    /// of the model.
    pub fn check(self, alloc: Global) -> Result<Valid, ModelFault>
        ensures valid { IfOk result (λ valid. (breaches self ≡ []) × (valid ≡ record self { modes = known_modes self })) }
        ensures refused { IfErr result (TellsFirst (breaches self)) }
    {
        let symbols = check_model(alloc, &self)?;
        let valid = keep(alloc, self, symbols)?;
        Ok(valid)
    }
}
