//! A value at a key: one that is required, or one that may be absent.
//!
//! What each type is read from, and which breaches its value may have, its reader says by two ghost
//! members, so that one function serves a required key of any kind and one an optional key.

ghost use Rattle.std.specs.Prelude.{◌≡◌, Err, option_map};
ghost use Rattle.toml.specs.View.{view};
ghost use Rattle.sig_types.specs.Spots.{at_key};
ghost use Rattle.sig_types.specs.Refused.{Answers};
ghost use Rattle.sig_text.specs.Values.{required_breaches, optional_breaches, value_or_empty};

use sig_types::{Code, Key, ModelFault, Place, Refusal, Spot};
use std::alloc::Global;
use toml::Value;

/// Refuses the text.
pub fn refuse<T>(code: Code, place: Place) -> Result<T, ModelFault>
    ensures { result ≡ Err (ModelFault.Refused (record { code = code; place = place })) }
{
    Err(ModelFault::Refused(Refusal { code, place }))
}

/// What a value is read into.
pub trait FromValue: Drop {
    ghost use Rattle.std.specs.Prelude.{List};
    ghost use Rattle.toml.specs.Data.{Data};
    ghost use Rattle.toml.specs.View.{view};
    ghost use Rattle.sig_types.specs.declared.refusals.Refusal.{Refusal};
    ghost use Rattle.sig_types.specs.declared.spot.Spot.{Spot};
    ghost use Rattle.sig_types.specs.Refused.{Answers};

    /// The breaches of a value that stands somewhere, in the order in which they are looked for.
    ghost breaches: { Spot → Data → List Refusal };

    /// What a value without a breach stands for.
    ghost stands_for: { Data → Self };

    fn read(alloc: Global, value: Value, at: Spot) -> Result<Self, ModelFault>
        ensures { Answers result (breaches at (view value)) (stands_for (view value)) };
}

/// What was found at a key that has to be there.
pub fn required<T: FromValue>(
    alloc: Global,
    found: Option<Value>,
    spot: Spot,
    key: Key,
) -> Result<T, ModelFault>
    ensures { let there = option_map view found in
        Answers result (required_breaches T.breaches (at_key spot key) there) (value_or_empty T.stands_for there) }
{
    match found {
        None => refuse(Code::M03, spot.at(key).place()),
        Some(value) => T::read(alloc, value, spot.at(key)),
    }
}

/// What was found at a key that may be absent.
pub fn optional<T: FromValue>(
    alloc: Global,
    found: Option<Value>,
    spot: Spot,
    key: Key,
) -> Result<Option<T>, ModelFault>
    ensures { let there = option_map view found in
        Answers result (optional_breaches T.breaches (at_key spot key) there) (option_map T.stands_for there) }
{
    match found {
        None => Ok(None),
        Some(value) => {
            let value = T::read(alloc, value, spot.at(key))?;
            Ok(Some(value))
        }
    }
}
