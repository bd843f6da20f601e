//! Names, and the ends of links: a name, or two names with one `.` between them.
//!
//! No name has a `.`, so a text that isn't a name is cut at its first one; a second one then stands
//! in what has to be a name.

ghost use Rattle.std.specs.Prelude.{◌≡◌, [], MatchOption, true, false};
ghost use Rattle.std.specs.List.{before_first, after_first};
ghost use Rattle.toml.specs.View.{view};
ghost use Rattle.sig_types.specs.Refused.{Answers};
ghost use Rattle.sig_text.specs.Values.{name_breaches, name_of, is_dot, is_pair, pair_in, is_end, end_in, end_breaches, end_of};

use crate::values::{FromValue, refuse};
use sig_types::{Code, End, ModelFault, Name, Spot};
use std::alloc::Global;
use toml::Value;

impl FromValue for Name {
    ghost breaches = { name_breaches };

    ghost stands_for = { name_of };

    fn read(_alloc: Global, value: Value, at: Spot) -> Result<Name, ModelFault> {
        match value {
            Value::String(text) => match Name::of(text.as_str()) {
                Some(name) => Ok(name),
                None => refuse(Code::M06, at.place()),
            },
            _ => refuse(Code::M05, at.place()),
        }
    }
}

/// What stands before the first `.` of a text and what stands after it.
fn split_at_dot(text: &str) -> Option<(&str, &str)>
    ensures { MatchOption result (after_first is_dot text.now ≡ []) (λ x. (x.0.now ≡ before_first is_dot text.now) × (x.1.now ≡ after_first is_dot text.now)) }
{
    text.split_once('.')
}

/// Two names, parted by a `.`.
fn pair_in(text: &str) -> Option<End>
    ensures { MatchOption result (is_pair text.now ≡ false) (λ end. (end ≡ pair_in text.now) × (is_pair text.now ≡ true)) }
{
    match split_at_dot(text) {
        None => None,
        Some((first, second)) => match (Name::of(first), Name::of(second)) {
            (Some(first), Some(second)) => Some(End {
                first,
                second: Some(second),
            }),
            _ => None,
        },
    }
}

/// The end of a link that a text is, where it is one.
fn end_in(text: &str) -> Option<End>
    ensures { MatchOption result (is_end text.now ≡ false) (λ end. (end ≡ end_in text.now) × (is_end text.now ≡ true)) }
{
    match Name::of(text) {
        Some(first) => Some(End {
            first,
            second: None,
        }),
        None => pair_in(text),
    }
}

impl FromValue for End {
    ghost breaches = { end_breaches };

    ghost stands_for = { end_of };

    fn read(_alloc: Global, value: Value, at: Spot) -> Result<End, ModelFault> {
        match value {
            Value::String(text) => match end_in(text.as_str()) {
                Some(end) => Ok(end),
                None => refuse(Code::M06, at.place()),
            },
            _ => refuse(Code::M05, at.place()),
        }
    }
}
