//! What is found out about a model before anything is unfolded: the patterns of its blocks, which block
//! each use has, and how much an instance of each block has with all its uses.
ghost use Rattle.std.specs.Prelude.{◌≡◌, ◌≤◌, map, length, IfOk};
ghost use Rattle.sig_types.specs.Breaches.{block_names};
ghost use Rattle.sig_flat.specs.Known.{IsKnown};
ghost use Rattle.sig_flat.specs.Layouts.{number_of, numbers_of_block};
ghost use Rattle.sig_flat.specs.Surveys.{top_of, IsSurvey, CountsAre};

use crate::counting::counts_of_blocks;
use crate::counts::Counts;
use crate::lookups::block_place;
use crate::pattern::{Pattern, patterns_of};
use sig_types::{Block, List, Used, Valid};
use std::alloc::{AllocError, Global};

#[derive(Drop)]
pub struct Survey {
    pub patterns: Vec<Pattern>,
    /// For each block the numbers of the blocks that it uses.
    pub numbers: Vec<List<u32>>,
    /// For each block how much an instance of it has.
    pub counts: Vec<Counts>,
    pub top: u32,
}

/// The number of the block that each use has.
fn numbers_of_uses(alloc: Global, valid: &Valid, uses: &[Used]) -> Result<List<u32>, AllocError>
    requires { length valid.now.blocks ≤ 1024 }
    ensures { IfOk result (λ numbers. numbers ≡ map (number_of (block_names valid.now)) uses.now) }
{
    let mut numbers = List::new(alloc);
    for used in uses {
        numbers.push(block_place(valid, &used.block) as u32)?;
    }
    Ok(numbers)
}

/// For each block the numbers of the blocks that it uses.
fn numbers_of_blocks(
    alloc: Global,
    valid: &Valid,
    blocks: &[Block],
) -> Result<Vec<List<u32>>, AllocError>
    requires { length valid.now.blocks ≤ 1024 }
    ensures { IfOk result (λ numbers. numbers.items ≡ map (numbers_of_block (block_names valid.now)) blocks.now) }
{
    let mut numbers = Vec::with_capacity(alloc, blocks.len())?;
    for block in blocks {
        numbers.push(numbers_of_uses(alloc, valid, block.uses.as_slice())?)?;
    }
    Ok(numbers)
}

/// How much the unfolded model has: as much as an instance of the top block.
pub fn counts_of(valid: &Valid, survey: &Survey) -> Counts
    requires known { IsKnown valid.now }
    requires survey { IsSurvey valid.now survey.now }
    ensures { CountsAre valid.now result }
{
    let counts = survey.counts.as_slice();
    counts[survey.top as usize]
}

/// The number of the top block.
fn top_in(valid: &Valid) -> u32
    requires { IsKnown valid.now }
    ensures { result ≡ top_of valid.now }
{
    block_place(valid, &valid.model().top) as u32
}

/// The survey of a model.
pub fn survey_of(alloc: Global, valid: &Valid) -> Result<Survey, AllocError>
    requires { IsKnown valid.now }
    ensures { IfOk result (IsSurvey valid.now) }
{
    let model = valid.model();
    let blocks = model.blocks.as_slice();
    let numbers = numbers_of_blocks(alloc, valid, blocks)?;
    let patterns = patterns_of(alloc, valid, blocks)?;
    let made = patterns.as_slice();
    let found = numbers.as_slice();
    let counts = counts_of_blocks(alloc, valid, made, found)?;
    let top = top_in(valid);
    Ok(Survey {
        patterns,
        numbers,
        counts,
        top,
    })
}
