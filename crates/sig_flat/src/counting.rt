//! How much an instance of each block has, without unfolding it: one pass upwards, since a block uses
//! earlier blocks only, and in it one pass over the uses of each block.
ghost use Rattle.std.specs.Prelude.{◌≡◌, ℕ, ◌<◌, length, slice_index_or, IfOk};
ghost use Rattle.std.specs.List.{Contains};
ghost use Rattle.sig_flat.specs.Known.{IsKnown};
ghost use Rattle.sig_flat.specs.Surveys.{numbers_of, patterns_of_model, AreCounts};
ghost use Rattle.sig_flat.specs.Counting.{no_counts, AreSums};

use crate::counts::Counts;
use crate::pattern::Pattern;
use sig_types::{List, Valid};
use std::alloc::{AllocError, Global};

/// What stands in a block itself, and what its uses have.
fn with_uses(own: Counts, uses: &[u32], counts: &[Counts]) -> Counts
    requires { (used : ℕ) → Contains uses.now used → used < length counts.now }
    ensures { AreSums own uses.now counts.now result }
{
    let mut total = own;
    for used in uses {
        total = total.with_use(&counts[*used as usize]);
    }
    total
}

/// For each block how much an instance of it has.
pub fn counts_of_blocks(
    alloc: Global,
    valid: &Valid,
    patterns: &[Pattern],
    numbers: &[List<u32>],
) -> Result<Vec<Counts>, AllocError>
    requires known { IsKnown valid.now }
    requires patterns { patterns.now ≡ patterns_of_model valid.now }
    requires numbers { numbers.now ≡ numbers_of valid.now }
    ensures long { IfOk result (λ counts. length counts.items ≡ length valid.now.blocks) }
    ensures counts { IfOk result (λ counts. (k : ℕ) → k < length valid.now.blocks → AreCounts valid.now k (slice_index_or counts.items k no_counts)) }
{
    let model = valid.model();
    let blocks = model.blocks.as_slice();
    let mut counts = Vec::with_capacity(alloc, blocks.len())?;
    for k in 0..blocks.len() {
        let own = Counts::own(&blocks[k], &patterns[k]);
        let total = with_uses(own, numbers[k].as_slice(), counts.as_slice());
        counts.push(total)?;
    }
    Ok(counts)
}
