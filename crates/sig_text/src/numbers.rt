//! Whole numbers in their ranges: weights, costs, the weight of no fault, and the version.

ghost use Rattle.std.specs.Prelude.{◌≡◌, ◌≤◌, IfOk, option_map};
ghost use Rattle.toml.specs.View.{view};
ghost use Rattle.sig_types.specs.Refused.{Answers, IsVerdict};
ghost use Rattle.sig_types.specs.Spots.{at_key};
ghost use Rattle.sig_types.specs.declared.refusals.Key.TheVariants.{Version as VersionKey};
ghost use Rattle.sig_text.specs.Values.{number_breaches, number_of, required_breaches, version_breaches};

use crate::values::{FromValue, refuse};
use sig_types::{Code, Cost, Good, Key, ModelFault, Spot, Weight};
use std::alloc::Global;
use toml::Value;

/// An integer from `low` to `high`.
fn number_in(value: Value, at: Spot, low: u64, high: u64) -> Result<u64, ModelFault>
    ensures value { Answers result (number_breaches low high at (view value)) (number_of (view value)) }
    ensures range { IfOk result (λ n. (low ≤ n) × (n ≤ high)) }
{
    match value {
        Value::Integer(n) => match u64::try_from(n) {
            Ok(n) if low <= n && n <= high => Ok(n),
            _ => refuse(Code::M09, at.place()),
        },
        _ => refuse(Code::M05, at.place()),
    }
}

impl FromValue for Good {
    ghost breaches = { number_breaches 0 1000000 };

    ghost stands_for = { number_of };

    fn read(_alloc: Global, value: Value, at: Spot) -> Result<Good, ModelFault> {
        let n = number_in(value, at, 0, 1_000_000)?;
        match Good::of(n) {
            Some(good) => Ok(good),
            None => unreachable!(),
        }
    }
}

impl FromValue for Weight {
    ghost breaches = { number_breaches 1 1000000 };

    ghost stands_for = { number_of };

    fn read(_alloc: Global, value: Value, at: Spot) -> Result<Weight, ModelFault> {
        let n = number_in(value, at, 1, 1_000_000)?;
        match Weight::of(n) {
            Some(weight) => Ok(weight),
            None => unreachable!(),
        }
    }
}

impl FromValue for Cost {
    ghost breaches = { number_breaches 1 1000000 };

    ghost stands_for = { number_of };

    fn read(_alloc: Global, value: Value, at: Spot) -> Result<Cost, ModelFault> {
        let n = number_in(value, at, 1, 1_000_000)?;
        match Cost::of(n) {
            Some(cost) => Ok(cost),
            None => unreachable!(),
        }
    }
}

/// Looks at the version of the form, which is 1.
pub fn check_version(found: Option<&Value>, spot: Spot) -> Result<(), ModelFault>
    ensures { IsVerdict (required_breaches version_breaches (at_key spot VersionKey) (option_map (λ x. view x.now) found.entry)) result }
{
    let place = spot.at(Key::Version).place();
    match found {
        Some(Value::Integer(1)) => Ok(()),
        Some(Value::Integer(_)) => refuse(Code::M02, place),
        Some(_) => refuse(Code::M05, place),
        None => refuse(Code::M03, place),
    }
}
