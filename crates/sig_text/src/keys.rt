//! Which keys a table may have, and the values that stand at them.
//!
//! The entries of a table are gone over once: each is moved to the place of its key among the keys that are known there,
//! and the first key that isn't one of them refuses the table, whatever it holds. So a table goes while it is read.

ghost use Rattle.std.specs.Option.{ForSome};
ghost use Rattle.std.specs.Prelude.{◌≡◌, MatchOption, ◌<◌, ◌≤◌, length, [], ◌∷◌, is_some, option_map, slice_index_or, slice_set, position, OnOk, IfOk, IfErr, Some, None, true};
ghost use Rattle.std.specs.Option.{option_or};
ghost use Rattle.std.specs.Str.{bytes_eq};
ghost use Rattle.toml.specs.View.{view, table_view};
ghost use Rattle.sig_types.specs.Refused.{TellsFirst};
ghost use Rattle.sig_types.specs.Spots.{place_of};
ghost use Rattle.sig_types.specs.Words.{key_word};
ghost use Rattle.sig_text.specs.Keys.{are_apart, are_known, unknown_keys, value_at, values_at, values_left};

use crate::values::refuse;
use sig_types::{Code, Key, ModelFault, Spot};
use toml::{Table, Value};

/// The value at a key of a table.
pub fn member<'a>(table: &'a Table, key: Key) -> Option<&'a Value>
    ensures { option_map (λ x. view x.now) result ≡ value_at key (table_view table.now) }
{
    table.get(key.word())
}

/// The place of the key that a text is, among the known ones.
fn place_of(known: &[Key], text: &str) -> Option<usize>
    ensures { result ≡ position (λ key. bytes_eq (key_word key) text.now) known.now }
{
    known.iter().position(|key| key.word() == text)
}

/// Puts a value at its place, where it has one and nothing stands there yet.
fn put(found: &mut [Option<Value>], place: Option<usize>, value: Value)
    requires { ForSome place (λ i. i < length found.old) }
    ensures { MatchOption place (found.new ≡ found.old) (λ i. found.new ≡ slice_set found.old i (option_or (slice_index_or found.old i None) (Some value))) }
{
    if let Some(i) = place {
        if found[i].is_none() {
            found[i] = Some(value);
        }
    }
}

/// What a table has at the keys that are known there, in the order of these keys, each to be taken in its turn, and
/// whether these are all its keys.
#[derive(Drop)]
pub struct Found {
    values: [Option<Value>; 7],
    count: usize,
    next: usize,
    pub no_other: bool,
}

impl Found {
    /// Takes what the table has at the next key.
    pub fn take_next(&mut self) -> Option<Value>
        requires { 0 < length (values_left self.old) }
        ensures { values_left self.old ≡ option_map view result ∷ values_left self.new }
    {
        let place = self.next;
        self.next = place + 1;
        self.values[place].take()
    }

    /// Whether the table has a value at the known key of this place. None has been taken yet.
    pub fn has(&self, place: usize) -> bool
        requires place { place < 7 }
        requires left { place < length (values_left self.now) }
        requires whole { self.now.next ≡ 0 }
        ensures { result ≡ is_some (slice_index_or (values_left self.now) place None) }
    {
        self.values[place].is_some()
    }
}

/// The values at the known keys of a table, in the order of these keys. They are told where it has no other key.
pub fn found_in(table: Table, known: &[Key]) -> Found
    requires apart { are_apart known.now ≡ true }
    requires few { length known.now ≤ 7 }
    ensures whole { result.next ≡ 0 }
    ensures no_other { result.no_other ≡ are_known known.now (table_view table) }
    ensures values { are_known known.now (table_view table) ≡ true → values_left result ≡ values_at known.now (table_view table) }
{
    let mut values = [None, None, None, None, None, None, None];
    let mut no_other = true;
    for (name, value) in table {
        let place = place_of(known, name.as_str());
        no_other &= place.is_some();
        put(&mut values, place, value);
    }
    Found {
        values,
        count: known.len(),
        next: 0,
        no_other,
    }
}

/// The values at the known keys of a table, in the order of these keys. Refuses a table that has another key.
pub fn values_of(table: Table, known: &[Key], spot: Spot) -> Result<Found, ModelFault>
    requires apart { are_apart known.now ≡ true }
    requires few { length known.now ≤ 7 }
    ensures known { OnOk result (unknown_keys known.now (place_of spot) (table_view table) ≡ []) }
    ensures values { IfOk result (λ found. values_left found ≡ values_at known.now (table_view table)) }
    ensures refused { IfErr result (TellsFirst (unknown_keys known.now (place_of spot) (table_view table))) }
{
    let found = found_in(table, known);
    if found.no_other {
        Ok(found)
    } else {
        refuse(Code::M04, spot.place())
    }
}
