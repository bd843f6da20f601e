//! Arrays, read element by element: the first element with a breach ends the reading. An element goes as soon as it is
//! read, while it is still near, so that a large text isn't gone over once more to be let go.

ghost use Rattle.std.specs.Prelude.{◌≡◌, [], ◌++◌, option_map};
ghost use Rattle.toml.specs.View.{view, items_view};
ghost use Rattle.sig_types.specs.Spots.{at_key};
ghost use Rattle.sig_types.specs.Refused.{Answers};
ghost use Rattle.sig_text.specs.Values.{each_breaches, each_of, array_breaches, list_of, optional_breaches, value_or_empty};

use crate::values::{FromValue, refuse};
use sig_types::{Code, Key, List, ModelFault, Spot};
use std::alloc::Global;
use toml::Value;

fn elements_in<T: FromValue>(
    alloc: Global,
    items: Vec<Value>,
    at: Spot,
) -> Result<List<T>, ModelFault>
    ensures { Answers result (each_breaches T.breaches at 0 (items_view items.items)) (each_of T.stands_for (items_view items.items)) }
{
    let mut elements = match List::with_capacity(alloc, items.len()) {
        Ok(elements) => elements,
        Err(_) => return Err(ModelFault::OutOfMemory),
    };
    let mut number = 0;
    for value in items {
        let element = T::read(alloc, value, at.element(number))?;
        match elements.push(element) {
            Ok(()) => {}
            Err(_) => return Err(ModelFault::OutOfMemory),
        }
        number += 1;
    }
    Ok(elements)
}

impl<T: FromValue> FromValue for List<T> {
    ghost breaches = { array_breaches T.breaches };

    ghost stands_for = { list_of T.stands_for };

    fn read(alloc: Global, value: Value, at: Spot) -> Result<List<T>, ModelFault> {
        match value {
            Value::Array(items) => elements_in::<T>(alloc, items, at),
            _ => refuse(Code::M05, at.place()),
        }
    }
}

/// The array that was found at a key; an absent one stands for an empty one.
pub fn list_at<T: FromValue>(
    alloc: Global,
    found: Option<Value>,
    spot: Spot,
    key: Key,
) -> Result<List<T>, ModelFault>
    ensures { let there = option_map view found in
        Answers result (optional_breaches (array_breaches T.breaches) (at_key spot key) there) (value_or_empty (list_of T.stands_for) there) }
{
    match found {
        None => Ok(List::new(alloc)),
        Some(value) => List::read(alloc, value, spot.at(key)),
    }
}
