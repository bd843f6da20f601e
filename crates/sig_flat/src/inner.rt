//! The instances inside an instance: for each use of a block, the block that it has and where the nodes
//! of its instance begin, counted from the first node of the outer one. They stand after the block's
//! own nodes, one after another, so one sum that runs along the uses is enough.
ghost use Rattle.std.specs.Prelude.{◌≡◌, ℕ, ◌<◌, length, IfOk};
ghost use Rattle.std.specs.List.{Contains};
ghost use Rattle.sig_flat.specs.Layouts.{inners_from};
ghost use Rattle.sig_flat.specs.Counting.{sizes_in};

use crate::counts::Counts;
use sig_types::{List, Name, Used};
use std::alloc::{AllocError, Global};

#[derive(Clone, Copy, Debug)]
pub struct Inner {
    pub name: Name,
    pub block: u32,
    /// Where its first node stands; stands still at the end of the word.
    pub offset: u64,
}

/// The instances inside a block that has so many nodes of its own.
pub fn inners_of(
    alloc: Global,
    uses: &[Used],
    numbers: &[u32],
    own: u64,
    counts: &[Counts],
) -> Result<List<Inner>, AllocError>
    requires long { length numbers.now ≡ length uses.now }
    requires known { (n : ℕ) → Contains numbers.now n → n < length counts.now }
    ensures { IfOk result (λ inners. inners ≡ inners_from (sizes_in counts.now) own uses.now numbers.now) }
{
    let mut offset = own;
    let mut inners = List::new(alloc);
    for nth in 0..uses.len() {
        let block = numbers[nth];
        inners.push(Inner {
            name: uses[nth].name,
            block,
            offset,
        })?;
        offset = offset.saturating_add(counts[block as usize].nodes);
    }
    Ok(inners)
}
