//! The walk over instances: the top block, then each of its uses, whole, one after another. It runs
//! after the counts were found to be within their limits, so its depth and its length are bounded by
//! them. Each instance is written down with its block, with what stands before its items' names, and
//! with the number of its first node; its items are copied later.
ghost use Rattle.std.specs.Prelude.{◌≡◌, ℕ, ◌^◌, ◌<◌, [], ◌++◌, length, slice_index_or, OnOk, IfOk};
ghost use Rattle.std.specs.List.{Contains};
ghost use Rattle.sig_flat.specs.declared.inner.Inner.{Inner};
ghost use Rattle.sig_flat.specs.Placed.{placed_at, NestEarlier, StartsFit, inner_prefix, IsShown, PrefixesShown};

use crate::inner::Inner;
use sig_types::{List, Name, Text};
use std::alloc::{AllocError, Global};

/// An instance of a block.
#[derive(Debug, Drop)]
pub struct Placed {
    /// Its path, with a `/` after each name.
    pub prefix: Text,
    pub block: u32,
    /// The number of its first node.
    pub start: u32,
}

/// The prefix of the instance of a use.
fn prefix_of(alloc: Global, outer: &str, name: &Name) -> Result<Text, AllocError>
    ensures prefix { IfOk result (λ prefix. prefix ≡ inner_prefix outer.now name.now) }
    ensures shown { IfOk result (λ prefix. IsShown outer.now → IsShown prefix) }
{
    let name = name.as_str();
    Ok(Text::from_string(format!(in alloc; "{outer}{name}/")?))
}

/// Appends the instance of a block, and then those of its uses, each whole.
pub fn place_instances(
    alloc: Global,
    inners: &[List<Inner>],
    prefix: &str,
    block: u32,
    start: u32,
    placed: &mut List<Placed>,
) -> Result<(), AllocError>
    requires block { block < length inners.now }
    requires earlier { NestEarlier inners.now }
    requires fits { StartsFit (placed_at inners.now prefix.now block start) }
    requires shown { IsShown prefix.now }
    ensures placed { OnOk result (placed.new ≡ placed.old ++ placed_at inners.now prefix.now block start) }
    ensures shown { OnOk result (PrefixesShown placed.old → PrefixesShown placed.new) }
{
    placed.push(Placed {
        prefix: Text::of(alloc, prefix)?,
        block,
        start,
    })?;
    for inner in inners[block as usize].as_slice() {
        let name = prefix_of(alloc, prefix, &inner.name)?;
        let begin = (start as u64 + inner.offset) as u32;
        place_instances(alloc, inners, name.as_str(), inner.block, begin, placed)?;
    }
    Ok(())
}
