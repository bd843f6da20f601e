//! The rules of a block, in the order in which they are looked at: names that repeat, then parts, uses, tests and links.
//! A block is checked on its own; of other blocks only the names and the ports count.
ghost use Rattle.std.specs.Prelude.{◌≡◌, map, IfOk};
ghost use Rattle.sig_types.specs.Breaches.{block_breaches, contents_breaches, each, functional_signals, mode_breaches, part_breaches, repeated_tests, test_breaches, unknown_among, use_breaches};
ghost use Rattle.sig_types.specs.Spots.{element_place};
ghost use Rattle.sig_types.specs.Refused.{IsVerdict};
ghost use Rattle.sig_types.specs.Symbols.{item_names};
ghost use Rattle.sig_types.specs.declared.model.Point.{Point};

use crate::check::index::Index;
use crate::check::link::check_links;
use crate::check::names::{check_known, check_repeats, refuse_if};
use crate::check::scope::Scope;
use crate::model::{Block, Functional, Part, Point, Test, Used};
use crate::name::Name;
use crate::refusals::{Code, Key, Kind, ModelFault, Place};
use crate::spot::Spot;
use indexmap::IndexSet;
use std::alloc::Global;

/// Looks for names that repeat among the tests of a point.
fn check_test_names(alloc: Global, block: u64, points: &[Point]) -> Result<(), ModelFault>
    ensures { IsVerdict (repeated_tests block points.now) result }
{
    for (p, point) in points.iter().enumerate() {
        let spot = Spot::block(block).item(Kind::Point, p as u64);
        check_repeats(alloc, point.tests.as_slice(), spot)?;
    }
    Ok(())
}

/// The signals on which a part works are known.
fn check_functional(
    index: &Index,
    list: Spot,
    functional: &Option<Functional>,
) -> Result<(), ModelFault>
    ensures { IsVerdict (unknown_among index.now.signals (element_place list) (functional_signals functional.now)) result }
{
    match functional {
        Some(functional) => check_known(index.signals(), functional.signals.as_slice(), list),
        None => Ok(()),
    }
}

fn check_part(index: &Index, block: u64, number: u64, part: &Part) -> Result<(), ModelFault>
    ensures { IsVerdict (part_breaches index.now block number part.now) result }
{
    let spot = Spot::block(block).item(Kind::Part, number);
    let signals = spot.at(Key::Signals);
    check_functional(index, signals, &part.functional)?;
    let stops = spot.at(Key::Stops);
    check_known(index.signals(), part.stops.as_slice(), stops)
}

fn check_parts(index: &Index, block: u64, parts: &[Part]) -> Result<(), ModelFault>
    ensures { IsVerdict (each (part_breaches index.now block) parts.now) result }
{
    for (k, part) in parts.iter().enumerate() {
        check_part(index, block, k as u64, part)?;
    }
    Ok(())
}

/// A use is of a block that stands before its own.
fn check_use(index: &Index, block: u64, number: u64, used: &Used) -> Result<(), ModelFault>
    ensures { IsVerdict (use_breaches index.now block number used.now) result }
{
    let spot = Spot::block(block).item(Kind::Use, number);
    let place = spot.at(Key::Block).place();
    match index.block_number(&used.block) {
        Some(other) => refuse_if(block <= other as u64, Code::M10, place),
        None => refuse_if(true, Code::M08, place),
    }
}

fn check_uses(index: &Index, block: u64, uses: &[Used]) -> Result<(), ModelFault>
    ensures { IsVerdict (each (use_breaches index.now block) uses.now) result }
{
    for (k, used) in uses.iter().enumerate() {
        check_use(index, block, k as u64, used)?;
    }
    Ok(())
}

/// A test names a mode that is known, or none.
fn check_mode(index: &Index, mode: &Option<Name>, place: Place) -> Result<(), ModelFault>
    ensures { IsVerdict (mode_breaches index.now place mode.now) result }
{
    match mode {
        Some(mode) => refuse_if(!index.modes().contains(mode), Code::M08, place),
        None => Ok(()),
    }
}

fn check_test(
    index: &Index,
    block: u64,
    point: u64,
    number: u64,
    test: &Test,
) -> Result<(), ModelFault>
    ensures { IsVerdict (test_breaches index.now block point number test.now) result }
{
    let spot = Spot::block(block).item(Kind::Point, point).test(number);
    let signals = spot.at(Key::Signals);
    check_known(index.signals(), test.signals.as_slice(), signals)?;
    check_mode(index, &test.mode, spot.at(Key::Mode).place())
}

fn check_tests(index: &Index, block: u64, point: u64, tests: &[Test]) -> Result<(), ModelFault>
    ensures { IsVerdict (each (test_breaches index.now block point) tests.now) result }
{
    for (t, test) in tests.iter().enumerate() {
        check_test(index, block, point, t as u64, test)?;
    }
    Ok(())
}

fn check_points(index: &Index, block: u64, points: &[Point]) -> Result<(), ModelFault>
    ensures { IsVerdict (each (λ p (point : Point). each (test_breaches index.now block p) point.tests) points.now) result }
{
    for (p, point) in points.iter().enumerate() {
        check_tests(index, block, p as u64, point.tests.as_slice())?;
    }
    Ok(())
}

/// Looks at what stands in a block whose items have names of their own.
fn check_contents(
    alloc: Global,
    index: &Index,
    scope: &Scope,
    number: u64,
    block: &Block,
) -> Result<(), ModelFault>
    requires { scope.now ≡ record { number = number; block = block.now } }
    ensures { IsVerdict (contents_breaches index.now number block.now) result }
{
    check_test_names(alloc, number, block.points.as_slice())?;
    check_parts(index, number, block.parts.as_slice())?;
    check_uses(index, number, block.uses.as_slice())?;
    check_points(index, number, block.points.as_slice())?;
    check_links(index, scope, block.links.as_slice())
}

/// Looks at one block, and gives the names of its items. Takes a look-up for each name that stands in it.
fn check_block(
    alloc: Global,
    index: &Index,
    number: u64,
    block: &Block,
) -> Result<IndexSet<Name>, ModelFault>
    ensures verdict { IsVerdict (block_breaches index.now number block.now) result }
    ensures names { IfOk result (λ names. names.keys ≡ item_names block.now) }
{
    let scope = Scope::of(alloc, number, block)?;
    check_contents(alloc, index, &scope, number, block)?;
    Ok(scope.into_names())
}

/// Looks at the blocks, and gives for each the names of its items.
pub(crate) fn check_blocks(
    alloc: Global,
    index: &Index,
    blocks: &[Block],
) -> Result<Vec<IndexSet<Name>>, ModelFault>
    ensures verdict { IsVerdict (each (block_breaches index.now) blocks.now) result }
    ensures items { IfOk result (λ items. map (λ names. names.keys) items.items ≡ map item_names blocks.now) }
{
    let mut items = Vec::with_capacity(alloc, blocks.len())?;
    for (b, block) in blocks.iter().enumerate() {
        items.push(check_block(alloc, index, b as u64, block)?)?;
    }
    Ok(items)
}
