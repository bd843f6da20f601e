//! The tables of a text: the document, its blocks, their items, and the tests of points.
//!
//! Each reader looks for an unknown key first and then reads key by key, in the order in which the
//! breaches are to be found; `?` ends it at the first.

ghost use Rattle.std.specs.Prelude.{◌≡◌, [], option_map, OnOk, IfOk, IfErr};
ghost use Rattle.toml.specs.View.{view, table_view};
ghost use Rattle.sig_types.specs.declared.refusals.Kind.TheVariants.{Part as PartKind, Use as UseKind, Point as PointKind, Link as LinkKind};
ghost use Rattle.sig_types.specs.declared.refusals.Key.TheVariants.{Functional as FunctionalKey};
ghost use Rattle.sig_types.specs.Spots.{as_block, as_item, as_test, place_of};
ghost use Rattle.sig_text.specs.Keys.{faulty_part_keys, part_keys, unknown_keys, value_at, values_at, values_left};
ghost use Rattle.sig_types.specs.Refused.{Answers, TellsFirst};
ghost use Rattle.sig_text.specs.Values.{table_breaches, table_of};
ghost use Rattle.sig_text.specs.Tables.{link_breaches, link_of, test_breaches, test_of, point_breaches, point_of, use_breaches, use_of, functional_breaches, functional_of, part_breaches, part_of, block_breaches, block_of, model_breaches, document_breaches, model_of};

use crate::arrays::list_at;
use crate::keys::{Found, found_in, member, values_of};
use crate::numbers::check_version;
use crate::values::{FromValue, optional, refuse, required};
use sig_types::{
    Block, Code, Cost, End, Functional, Good, Key, Kind, Link, List, Model, ModelFault, Name, Part,
    Place, Point, Spot, Test, Used, Weight,
};
use std::alloc::Global;
use toml::{Table, Value};

fn link_in(alloc: Global, table: Table, spot: Spot) -> Result<Link, ModelFault>
    ensures { Answers result (link_breaches spot (table_view table)) (link_of (table_view table)) }
{
    let known = [Key::From, Key::To, Key::Modes];
    let mut found = values_of(table, &known, spot)?;
    let from = required::<End>(alloc, found.take_next(), spot, Key::From)?;
    let to = required::<End>(alloc, found.take_next(), spot, Key::To)?;
    let modes = list_at::<Name>(alloc, found.take_next(), spot, Key::Modes)?;
    Ok(Link { from, to, modes })
}

impl FromValue for Link {
    ghost breaches = { table_breaches link_breaches (as_item LinkKind) };

    ghost stands_for = { table_of link_of };

    fn read(alloc: Global, value: Value, at: Spot) -> Result<Link, ModelFault> {
        match value {
            Value::Table(table) => link_in(alloc, table, at.as_item(Kind::Link)),
            _ => refuse(Code::M05, at.place()),
        }
    }
}

fn test_in(alloc: Global, table: Table, spot: Spot) -> Result<Test, ModelFault>
    ensures { Answers result (test_breaches spot (table_view table)) (test_of (table_view table)) }
{
    let known = [Key::Name, Key::Cost, Key::Signals, Key::Mode];
    let mut found = values_of(table, &known, spot)?;
    let name = required::<Name>(alloc, found.take_next(), spot, Key::Name)?;
    let cost = required::<Cost>(alloc, found.take_next(), spot, Key::Cost)?;
    let signals = required::<List<Name>>(alloc, found.take_next(), spot, Key::Signals)?;
    let mode = optional::<Name>(alloc, found.take_next(), spot, Key::Mode)?;
    Ok(Test {
        name,
        cost,
        signals,
        mode,
    })
}

impl FromValue for Test {
    ghost breaches = { table_breaches test_breaches as_test };

    ghost stands_for = { table_of test_of };

    fn read(alloc: Global, value: Value, at: Spot) -> Result<Test, ModelFault> {
        match value {
            Value::Table(table) => test_in(alloc, table, at.as_test()),
            _ => refuse(Code::M05, at.place()),
        }
    }
}

fn point_in(alloc: Global, table: Table, spot: Spot) -> Result<Point, ModelFault>
    ensures { Answers result (point_breaches spot (table_view table)) (point_of (table_view table)) }
{
    let mut found = values_of(table, &[Key::Name, Key::Test], spot)?;
    let name = required::<Name>(alloc, found.take_next(), spot, Key::Name)?;
    let tests = list_at::<Test>(alloc, found.take_next(), spot, Key::Test)?;
    Ok(Point { name, tests })
}

impl FromValue for Point {
    ghost breaches = { table_breaches point_breaches (as_item PointKind) };

    ghost stands_for = { table_of point_of };

    fn read(alloc: Global, value: Value, at: Spot) -> Result<Point, ModelFault> {
        match value {
            Value::Table(table) => point_in(alloc, table, at.as_item(Kind::Point)),
            _ => refuse(Code::M05, at.place()),
        }
    }
}

fn use_in(alloc: Global, table: Table, spot: Spot) -> Result<Used, ModelFault>
    ensures { Answers result (use_breaches spot (table_view table)) (use_of (table_view table)) }
{
    let mut found = values_of(table, &[Key::Name, Key::Block], spot)?;
    let name = required::<Name>(alloc, found.take_next(), spot, Key::Name)?;
    let block = required::<Name>(alloc, found.take_next(), spot, Key::Block)?;
    Ok(Used { name, block })
}

impl FromValue for Used {
    ghost breaches = { table_breaches use_breaches (as_item UseKind) };

    ghost stands_for = { table_of use_of };

    fn read(alloc: Global, value: Value, at: Spot) -> Result<Used, ModelFault> {
        match value {
            Value::Table(table) => use_in(alloc, table, at.as_item(Kind::Use)),
            _ => refuse(Code::M05, at.place()),
        }
    }
}

/// The functional fault of a part, where there is one.
fn functional_in(
    alloc: Global,
    functional: Option<Value>,
    signals: Option<Value>,
    spot: Spot,
) -> Result<Option<Functional>, ModelFault>
    ensures { let weight = option_map view functional in
        let names = option_map view signals in
        Answers result (functional_breaches spot names weight) (functional_of names weight) }
{
    match functional {
        None => Ok(None),
        Some(value) => {
            let weight = Weight::read(alloc, value, spot.at(Key::Functional))?;
            let signals = required::<List<Name>>(alloc, signals, spot, Key::Signals)?;
            Ok(Some(Functional { weight, signals }))
        }
    }
}

/// The values at the keys of a part. The signals of a part are those of its functional fault, so where there is none they
/// are no known key.
#[tactic(auto, using(crate::proofs::PartKeys::part_known))]
fn part_values(table: Table, spot: Spot) -> Result<Found, ModelFault>
    ensures known { OnOk result (unknown_keys (part_keys (value_at FunctionalKey (table_view table))) (place_of spot) (table_view table) ≡ []) }
    ensures found { IfOk result (λ found. values_left found ≡ values_at faulty_part_keys (table_view table)) }
    ensures refused { IfErr result (TellsFirst (unknown_keys (part_keys (value_at FunctionalKey (table_view table))) (place_of spot) (table_view table))) }
{
    let known = [
        Key::Name,
        Key::Functional,
        Key::Signals,
        Key::General,
        Key::Stops,
    ];
    let found = found_in(table, &known);
    if !found.no_other || (!found.has(1) && found.has(2)) {
        return refuse(Code::M04, spot.place());
    }
    Ok(found)
}

fn part_in(alloc: Global, table: Table, spot: Spot) -> Result<Part, ModelFault>
    ensures { Answers result (part_breaches spot (table_view table)) (part_of (table_view table)) }
{
    let mut found = part_values(table, spot)?;
    let name = required::<Name>(alloc, found.take_next(), spot, Key::Name)?;
    let functional = functional_in(alloc, found.take_next(), found.take_next(), spot)?;
    let general = optional::<Weight>(alloc, found.take_next(), spot, Key::General)?;
    let stops = list_at::<Name>(alloc, found.take_next(), spot, Key::Stops)?;
    Ok(Part {
        name,
        functional,
        general,
        stops,
    })
}

impl FromValue for Part {
    ghost breaches = { table_breaches part_breaches (as_item PartKind) };

    ghost stands_for = { table_of part_of };

    fn read(alloc: Global, value: Value, at: Spot) -> Result<Part, ModelFault> {
        match value {
            Value::Table(table) => part_in(alloc, table, at.as_item(Kind::Part)),
            _ => refuse(Code::M05, at.place()),
        }
    }
}

fn block_in(alloc: Global, table: Table, spot: Spot) -> Result<Block, ModelFault>
    ensures { Answers result (block_breaches spot (table_view table)) (block_of (table_view table)) }
{
    let known = [
        Key::Name,
        Key::Ports,
        Key::Switches,
        Key::Part,
        Key::Use,
        Key::Point,
        Key::Link,
    ];
    let mut found = values_of(table, &known, spot)?;
    let name = required::<Name>(alloc, found.take_next(), spot, Key::Name)?;
    let ports = list_at::<Name>(alloc, found.take_next(), spot, Key::Ports)?;
    let switches = list_at::<Name>(alloc, found.take_next(), spot, Key::Switches)?;
    let parts = list_at::<Part>(alloc, found.take_next(), spot, Key::Part)?;
    let uses = list_at::<Used>(alloc, found.take_next(), spot, Key::Use)?;
    let points = list_at::<Point>(alloc, found.take_next(), spot, Key::Point)?;
    let links = list_at::<Link>(alloc, found.take_next(), spot, Key::Link)?;
    Ok(Block {
        name,
        ports,
        switches,
        parts,
        uses,
        points,
        links,
    })
}

impl FromValue for Block {
    ghost breaches = { table_breaches block_breaches as_block };

    ghost stands_for = { table_of block_of };

    fn read(alloc: Global, value: Value, at: Spot) -> Result<Block, ModelFault> {
        match value {
            Value::Table(table) => block_in(alloc, table, at.as_block()),
            _ => refuse(Code::M05, at.place()),
        }
    }
}

/// The model of a document's table whose version is 1.
fn model_in(alloc: Global, table: Table) -> Result<Model, ModelFault>
    ensures { Answers result (model_breaches (table_view table)) (model_of (table_view table)) }
{
    let known = [
        Key::Version,
        Key::Good,
        Key::Top,
        Key::Signals,
        Key::Modes,
        Key::Block,
    ];
    let spot = Spot::document();
    let mut found = found_in(table, &known);
    if !found.no_other {
        return refuse(Code::M04, Place::Document);
    }
    let _version = found.take_next();
    let good = required::<Good>(alloc, found.take_next(), spot, Key::Good)?;
    let top = required::<Name>(alloc, found.take_next(), spot, Key::Top)?;
    let signals = list_at::<Name>(alloc, found.take_next(), spot, Key::Signals)?;
    let modes = list_at::<Name>(alloc, found.take_next(), spot, Key::Modes)?;
    let blocks = required::<List<Block>>(alloc, found.take_next(), spot, Key::Block)?;
    Ok(Model {
        good,
        top,
        signals,
        modes,
        blocks,
    })
}

/// The model of a document's table.
pub fn document_in(alloc: Global, table: Table) -> Result<Model, ModelFault>
    ensures { Answers result (document_breaches (table_view table)) (model_of (table_view table)) }
{
    check_version(member(&table, Key::Version), Spot::document())?;
    model_in(alloc, table)
}
