//! From a model of blocks to a flat model. First the blocks are looked over, each once, and the counts of
//! the whole are worked out from them; a model that passes a limit is refused there, so that work and
//! memory stay within the limits. Then the items of all instances are copied from the patterns of their
//! blocks, and they make the flat model.
ghost use Rattle.std.specs.Prelude.{◌≡◌, ◌&&◌, ◌≤◌, true, nat_eq, length, None, IfOk, IfErr};
ghost use Rattle.std.specs.Option.{option_to_list};
ghost use Rattle.sig_types.specs.Refused.{TellsFirst};
ghost use Rattle.sig_flat.specs.Counts.{first_over, refusal_after, flat_refusal};
ghost use Rattle.sig_flat.specs.Counting.{limits_of};
ghost use Rattle.sig_flat.specs.Flats.{IsFlatOf};
ghost use Rattle.sig_flat.specs.Items.{AreItemsOf};
ghost use Rattle.sig_flat.specs.Known.{IsKnown, AreNames};
ghost use Rattle.sig_types.specs.NameText.{is_name};
ghost use Rattle.sig_flat.specs.Surveys.{IsSurvey, CountsAre};

use crate::counts::Counts;
use crate::flat::Flat;
use crate::items::{Items, items_of};
use crate::survey::{Survey, counts_of, survey_of};
use sig_types::{Code, Good, List, ModelFault, Name, Place, Refusal, Valid};
use std::alloc::{AllocError, Global};

/// Why no flat model comes out, where the counts say so.
fn refusal_of(good: &Good, counts: &Counts) -> Option<Refusal>
    ensures { result ≡ refusal_after (first_over (limits_of counts.now)) (nat_eq good.now 0 && nat_eq counts.now.faults 0) }
{
    if let Some(counted) = counts.over_limit() {
        return Some(Refusal {
            code: Code::M13,
            place: Place::Count(counted),
        });
    }
    if good.get() == 0 && counts.faults == 0 {
        return Some(Refusal {
            code: Code::M14,
            place: Place::States,
        });
    }
    None
}

/// The name, which is one.
fn named(name: &Name) -> Name
    ensures same { result ≡ name.now }
    ensures name { is_name result ≡ true }
{
    let _bytes = name.as_bytes();
    *name
}

/// The modes, each with its name.
fn named_modes(alloc: Global, modes: &[Name]) -> Result<List<Name>, AllocError>
    ensures same { IfOk result (λ kept. kept ≡ modes.now) }
    ensures names { IfOk result AreNames }
{
    let mut kept = List::new(alloc);
    for mode in modes {
        kept.push(named(mode))?;
    }
    Ok(kept)
}

/// The flat model that these items make.
fn flat_of(alloc: Global, valid: &Valid, items: Items) -> Result<Flat, AllocError>
    requires known { IsKnown valid.now }
    requires within { flat_refusal valid.now ≡ None }
    requires items { AreItemsOf valid.now items }
    ensures { IfOk result (IsFlatOf valid.now) }
{
    let model = valid.model();
    let modes = named_modes(alloc, model.modes.as_slice())?;
    let Items {
        nodes,
        links,
        faults,
        tests,
    } = items;
    Ok(Flat {
        good: model.good.get(),
        modes,
        nodes,
        links,
        faults,
        tests,
    })
}

/// The items of the instances, put together.
fn unfolded(alloc: Global, valid: &Valid, survey: &Survey) -> Result<Flat, AllocError>
    requires known { IsKnown valid.now }
    requires survey { IsSurvey valid.now survey.now }
    requires within { flat_refusal valid.now ≡ None }
    ensures { IfOk result (IsFlatOf valid.now) }
{
    let items = items_of(alloc, valid, survey)?;
    let flat = flat_of(alloc, valid, items)?;
    Ok(flat)
}

/// The survey of a model and its counts.
fn surveyed(alloc: Global, valid: &Valid) -> Result<(Survey, Counts), AllocError>
    requires { IsKnown valid.now }
    ensures { IfOk result (λ s. IsSurvey valid.now s.0 × CountsAre valid.now s.1) }
{
    let survey = survey_of(alloc, valid)?;
    let counts = counts_of(valid, &survey);
    Ok((survey, counts))
}

/// The flat model of a valid model: nodes, links, faults and tests of all instances, in the order of the
/// walk from the top block down. M13 comes exactly where the first of depth, uses, nodes, links, faults
/// and tests passes its limit, and else M14 exactly where there is neither a weight of no fault nor a
/// fault. Takes time and memory as the model and the limits bound them.
pub fn flatten(alloc: Global, valid: &Valid) -> Result<Flat, ModelFault>
    ensures accepted { IfOk result (λ flat. flat_refusal valid.now ≡ None) }
    ensures flat { IfOk result (IsFlatOf valid.now) }
    ensures refused { IfErr result (TellsFirst (option_to_list (flat_refusal valid.now))) }
{
    let model = valid.model();
    let (survey, counts) = match surveyed(alloc, valid) {
        Ok(found) => found,
        Err(_) => return Err(ModelFault::OutOfMemory),
    };
    if let Some(refusal) = refusal_of(&model.good, &counts) {
        return Err(ModelFault::Refused(refusal));
    }
    match unfolded(alloc, valid, &survey) {
        Ok(flat) => Ok(flat),
        Err(_) => Err(ModelFault::OutOfMemory),
    }
}
