//! From the bytes of a model text to the flat model of its system, or the first refusal: the reader, the
//! check and the flattening in a row, and then the mode that the plan names.
ghost use Rattle.std.specs.Prelude.{◌≡◌, ◌<◌, [], length, option_map, position, IfOk, IfErr, IfSome, OnOk};
ghost use Rattle.std.specs.Str.{bytes_eq};
ghost use Rattle.sig_types.specs.Refused.{TellsFirst};
ghost use Rattle.sig_flat.specs.Valid.{IsValid};
ghost use Rattle.teams_run.specs.Accepted.{IsFlatOfText, text_refusals, mode_refusals, mode_number};

use sig_flat::{Flat, flatten};
use sig_text::read_model;
use sig_types::{Code, ModelFault, Name, Place, Refusal, Text};
use std::alloc::Global;

/// The flat model of the system that the bytes describe.
pub fn flat_of_text(alloc: Global, content: &[u8]) -> Result<Flat, ModelFault>
    ensures flat { IfOk result (IsFlatOfText content.now) }
    ensures valid { IfOk result IsValid }
    ensures refused { IfErr result (TellsFirst (text_refusals content.now)) }
{
    let model = match read_model(alloc, content) {
        Ok(model) => model,
        Err(fault) => return Err(fault),
    };
    let valid = match model.check(alloc) {
        Ok(valid) => valid,
        Err(fault) => return Err(fault),
    };
    flatten(alloc, &valid)
}

/// The place of the name among the modes.
fn place_of(modes: &[Name], name: &str) -> Option<usize>
    ensures { result ≡ position (bytes_eq name.now) modes.now }
{
    modes.iter().position(|mode| name == mode.as_str())
}

/// The number of the mode that is named, where one is.
pub fn mode_of(flat: &Flat, mode: Option<&Text>) -> Result<Option<u32>, ModelFault>
    requires valid { IsValid flat.now }
    ensures known { OnOk result (mode_refusals flat.now.modes (option_map (λ m. m.now) mode.entry) ≡ []) }
    ensures number { IfOk result (λ number. number ≡ mode_number flat.now.modes (option_map (λ m. m.now) mode.entry)) }
    ensures there { IfOk result (λ number. IfSome number (λ m. m < length flat.now.modes)) }
    ensures refused { IfErr result (TellsFirst (mode_refusals flat.now.modes (option_map (λ m. m.now) mode.entry))) }
{
    let Some(mode) = mode else {
        return Ok(None);
    };
    match place_of(flat.modes.as_slice(), mode.as_str()) {
        Some(place) => Ok(Some(place as u32)),
        None => Err(ModelFault::Refused(Refusal {
            code: Code::M15,
            place: Place::ModeOption,
        })),
    }
}
