//! The instances of a model that is within its limits, written down by one walk, and the links of its
//! blocks by places.
ghost use Rattle.std.specs.Prelude.{◌≡◌, [], None, IfOk};
ghost use Rattle.sig_flat.specs.Counts.{flat_refusal};
ghost use Rattle.sig_flat.specs.Known.{IsKnown};
ghost use Rattle.sig_flat.specs.Counting.{sizes_in};
ghost use Rattle.sig_flat.specs.Placed.{placed_at, PrefixesShown};
ghost use Rattle.sig_flat.specs.Surveys.{top_of, IsSurvey, AreInners, IsPlacing};

use crate::inner::Inner;
use crate::layout::{inners_of_blocks, links_of_blocks};
use crate::links::LinkPattern;
use crate::survey::Survey;
use crate::walk::{Placed, place_instances};
use sig_types::{List, Valid};
use std::alloc::{AllocError, Global};

/// The instances of a model, and by block its links.
#[derive(Drop)]
pub struct Placing {
    pub placed: List<Placed>,
    pub links: Vec<List<LinkPattern>>,
}

/// For each block the instances inside an instance of it.
fn inners_of_model(
    alloc: Global,
    valid: &Valid,
    survey: &Survey,
) -> Result<Vec<List<Inner>>, AllocError>
    requires known { IsKnown valid.now }
    requires survey { IsSurvey valid.now survey.now }
    ensures { IfOk result (λ inners. AreInners valid.now (sizes_in survey.now.counts.items) inners.items) }
{
    let model = valid.model();
    let blocks = model.blocks.as_slice();
    let numbers = survey.numbers.as_slice();
    let patterns = survey.patterns.as_slice();
    let counts = survey.counts.as_slice();
    let inners = inners_of_blocks(alloc, blocks, numbers, patterns, counts)?;
    Ok(inners)
}

/// The instances, by one walk from the top block down.
fn placed_of_model(
    alloc: Global,
    valid: &Valid,
    survey: &Survey,
    inners: &[List<Inner>],
) -> Result<List<Placed>, AllocError>
    requires known { IsKnown valid.now }
    requires survey { IsSurvey valid.now survey.now }
    requires inners { AreInners valid.now (sizes_in survey.now.counts.items) inners.now }
    requires within { flat_refusal valid.now ≡ None }
    ensures placed { IfOk result (λ placed. placed ≡ placed_at inners.now [] (top_of valid.now) 0) }
    ensures shown { IfOk result PrefixesShown }
{
    let mut placed = List::new(alloc);
    place_instances(alloc, inners, "", survey.top, 0, &mut placed)?;
    Ok(placed)
}

/// What the flat items are copied from, where the model is within its limits.
pub fn placing_of(alloc: Global, valid: &Valid, survey: &Survey) -> Result<Placing, AllocError>
    requires known { IsKnown valid.now }
    requires survey { IsSurvey valid.now survey.now }
    requires within { flat_refusal valid.now ≡ None }
    ensures placing { IfOk result (λ p. IsPlacing valid.now p.placed p.links.items) }
    ensures shown { IfOk result (λ p. PrefixesShown p.placed) }
{
    let inners = inners_of_model(alloc, valid, survey)?;
    let inside = inners.as_slice();
    let links = links_of_blocks(alloc, valid, inside)?;
    let placed = placed_of_model(alloc, valid, survey, inside)?;
    Ok(Placing { placed, links })
}
