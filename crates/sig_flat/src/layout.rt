//! Where things stand inside an instance of each block: the instances of its uses, and the ends of its
//! links.
ghost use Rattle.std.specs.Prelude.{◌≡◌, ℕ, ◌<◌, [], length, slice_index_or, IfOk};
ghost use Rattle.std.specs.List.{Contains};
ghost use Rattle.sig_flat.specs.declared.inner.Inner.{Inner};
ghost use Rattle.sig_flat.specs.Resolved.{block_at};
ghost use Rattle.sig_flat.specs.Placed.{no_pattern};
ghost use Rattle.sig_flat.specs.Known.{IsKnown};
ghost use Rattle.sig_flat.specs.Layouts.{inners_from};
ghost use Rattle.sig_flat.specs.Counting.{sizes_in};
ghost use Rattle.sig_flat.specs.Surveys.{AreLinks};

use crate::counts::Counts;
use crate::inner::{Inner, inners_of};
use crate::links::{LinkPattern, links_of};
use crate::pattern::Pattern;
use sig_types::{Block, List, Valid};
use std::alloc::{AllocError, Global};

/// For each block the instances inside an instance of it.
pub fn inners_of_blocks(
    alloc: Global,
    blocks: &[Block],
    numbers: &[List<u32>],
    patterns: &[Pattern],
    counts: &[Counts],
) -> Result<Vec<List<Inner>>, AllocError>
    requires patterns { length patterns.now ≡ length blocks.now }
    requires numbers { length numbers.now ≡ length blocks.now }
    requires uses { (k : ℕ) → k < length blocks.now → length (slice_index_or numbers.now k []) ≡ length (block_at blocks.now k).uses }
    requires known { (k n : ℕ) → Contains (slice_index_or numbers.now k []) n → n < length counts.now }
    ensures long { IfOk result (λ inners. length inners.items ≡ length blocks.now) }
    ensures inners { IfOk result (λ inners. (k : ℕ) → k < length blocks.now → slice_index_or inners.items k [] ≡ inners_from (sizes_in counts.now) (length (slice_index_or patterns.now k no_pattern).nodes) (block_at blocks.now k).uses (slice_index_or numbers.now k [])) }
{
    let mut inners = Vec::with_capacity(alloc, blocks.len())?;
    for k in 0..blocks.len() {
        let own = patterns[k].nodes.len() as u64;
        let inside = inners_of(
            alloc,
            blocks[k].uses.as_slice(),
            numbers[k].as_slice(),
            own,
            counts,
        )?;
        inners.push(inside)?;
    }
    Ok(inners)
}

/// For each block its links, by places.
pub fn links_of_blocks(
    alloc: Global,
    valid: &Valid,
    inners: &[List<Inner>],
) -> Result<Vec<List<LinkPattern>>, AllocError>
    requires known { IsKnown valid.now }
    requires long { length inners.now ≡ length valid.now.blocks }
    requires uses { (k : ℕ) → k < length valid.now.blocks → length (slice_index_or inners.now k []) ≡ length (block_at valid.now.blocks k).uses }
    requires blocks { (k : ℕ) (inner : Inner) → Contains (slice_index_or inners.now k []) inner → inner.block < length valid.now.blocks }
    ensures { IfOk result (λ links. AreLinks valid.now inners.now links.items) }
{
    let mut links = Vec::with_capacity(alloc, inners.len())?;
    for k in 0..inners.len() {
        links.push(links_of(alloc, valid, k, inners[k].as_slice())?)?;
    }
    Ok(links)
}
