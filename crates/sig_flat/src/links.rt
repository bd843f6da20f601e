//! The links of a block by the places of their ends, which count from the first node of an instance:
//! an item of the block has its place among the block's nodes, and a port of a use its place in the
//! used block, after what stands before that instance. The model has the names by number.
ghost use Rattle.std.specs.Prelude.{◌≡◌, ◌<◌, ◌≤◌, map, length, IfOk};
ghost use Rattle.std.specs.List.{Contains};
ghost use Rattle.sig_flat.specs.declared.inner.Inner.{Inner};
ghost use Rattle.sig_flat.specs.Flats.{alive_modes};
ghost use Rattle.sig_flat.specs.Known.{use_names, IsKnown};
ghost use Rattle.sig_flat.specs.Places.{own_names};
ghost use Rattle.sig_flat.specs.Resolved.{block_at};
ghost use Rattle.sig_flat.specs.Surveys.{links_with};
ghost use Rattle.sig_flat.specs.Words.{word_of};
ghost use Rattle.sig_flat.specs.Layouts.{port_place, end_place, NamesUse};

use crate::inner::Inner;
use crate::lookups::{node_place, use_place};
use crate::sets::modes_of;
use sig_types::{End, Link, List, Modes, Name, Valid};
use std::alloc::{AllocError, Global};

#[derive(Clone, Copy, Debug)]
pub struct LinkPattern {
    pub from: u64,
    pub to: u64,
    pub modes: Modes,
}

/// The place of a port of the use of a number.
#[tactic(auto, unfolding(crate::specs::Layouts::port_place))]
fn place_of_port(valid: &Valid, inners: &[Inner], nth: usize, port: &Name) -> u64
    requires nth { nth < length inners.now }
    requires blocks { (inner : Inner) → Contains inners.now inner → inner.block < length valid.now.blocks }
    ensures { result ≡ port_place inners.now (map own_names valid.now.blocks) nth port.now }
{
    let inner = &inners[nth];
    let place = node_place(valid, inner.block as usize, port);
    inner.offset.saturating_add(place as u64)
}

/// The place of an end of a link of a block, which has these instances inside.
fn place_of_end(valid: &Valid, block: usize, inners: &[Inner], end: &End) -> u64
    requires there { block < length valid.now.blocks }
    requires names { NamesUse (use_names (block_at valid.now.blocks block)) end.now.first end.now.second }
    requires long { length inners.now ≡ length (block_at valid.now.blocks block).uses }
    requires blocks { (inner : Inner) → Contains inners.now inner → inner.block < length valid.now.blocks }
    ensures { result ≡ end_place (own_names (block_at valid.now.blocks block)) (use_names (block_at valid.now.blocks block)) inners.now (map own_names valid.now.blocks) end.now.first end.now.second }
{
    match &end.second {
        Some(port) => place_of_port(valid, inners, use_place(valid, block, &end.first), port),
        None => node_place(valid, block, &end.first) as u64,
    }
}

/// The modes that the link is alive in: those that it names, or all where it names none.
fn modes_alive(valid: &Valid, named: &List<Name>) -> Modes
    requires { length valid.now.modes ≤ 32 }
    ensures { result.0 ≡ word_of valid.now.modes (alive_modes valid.now.modes named.now) }
{
    if named.len() == 0 {
        modes_of(valid, valid.model().modes.as_slice())
    } else {
        modes_of(valid, named.as_slice())
    }
}

/// The links of a block, which has these instances inside.
pub fn links_of(
    alloc: Global,
    valid: &Valid,
    block: usize,
    inners: &[Inner],
) -> Result<List<LinkPattern>, AllocError>
    requires known { IsKnown valid.now }
    requires there { block < length valid.now.blocks }
    requires long { length inners.now ≡ length (block_at valid.now.blocks block).uses }
    requires blocks { (inner : Inner) → Contains inners.now inner → inner.block < length valid.now.blocks }
    ensures { IfOk result (λ patterns. patterns ≡ links_with valid.now block inners.now) }
{
    let model = valid.model();
    let links = &model.blocks.as_slice()[block].links;
    let mut patterns = List::new(alloc);
    for link in links.as_slice() {
        patterns.push(LinkPattern {
            from: place_of_end(valid, block, inners, &link.from),
            to: place_of_end(valid, block, inners, &link.to),
            modes: modes_alive(valid, &link.modes),
        })?;
    }
    Ok(patterns)
}
