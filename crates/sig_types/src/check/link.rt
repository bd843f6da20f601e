//! The rules of a block's links: both ends are there, the modes are known, and modes are named exactly where an end is a
//! switch.
ghost use Rattle.std.specs.Prelude.{◌≡◌, ◌||◌, not, Some};
ghost use Rattle.sig_types.specs.Breaches.{breach_if, each, end_breaches, end_of_item, is_switch, link_breaches, names_some, same_answer};
ghost use Rattle.sig_types.specs.Refused.{IsVerdict};
ghost use Rattle.sig_types.specs.declared.refusals.Code.TheVariants.{M12};

use crate::check::index::Index;
use crate::check::names::{check_known, refuse_if};
use crate::check::scope::Scope;
use crate::model::{End, Link};
use crate::name::Name;
use crate::refusals::{Code, Key, Kind, ModelFault, Place};
use crate::spot::Spot;

/// Of an end `use.port`: the use is one, and its block has the port.
fn check_port(
    index: &Index,
    scope: &Scope,
    place: Place,
    name: &Name,
    port: &Name,
) -> Result<(), ModelFault>
    ensures { IsVerdict (end_of_item index.now scope.now.block place name.now (Some port.now)) result }
{
    match scope.used_block(name) {
        Some(block) => refuse_if(!index.has_port(&block, port), Code::M08, place),
        None => refuse_if(true, Code::M11, place),
    }
}

/// Of an end that names an item: a use stands with a port, and nothing else does.
fn check_item(index: &Index, scope: &Scope, place: Place, end: &End) -> Result<(), ModelFault>
    ensures { IsVerdict (end_of_item index.now scope.now.block place end.now.first end.now.second) result }
{
    match &end.second {
        Some(port) => check_port(index, scope, place, &end.first, port),
        None => refuse_if(scope.used_block(&end.first).is_some(), Code::M11, place),
    }
}

fn check_end(index: &Index, scope: &Scope, place: Place, end: &End) -> Result<(), ModelFault>
    ensures { IsVerdict (end_breaches index.now scope.now.number scope.now.block place end.now) result }
{
    if scope.has_item(&end.first) {
        check_item(index, scope, place, end)
    } else {
        refuse_if(true, Code::M08, place)
    }
}

fn is_switch(scope: &Scope, end: &End) -> bool
    ensures { result ≡ is_switch scope.now.block end.now }
{
    end.second.is_none() && scope.has_switch(&end.first)
}

/// Modes are named exactly where an end is a switch.
fn check_modes_named(scope: &Scope, place: Place, link: &Link) -> Result<(), ModelFault>
    ensures { IsVerdict (breach_if (not (same_answer (is_switch scope.now.block link.now.from || is_switch scope.now.block link.now.to) (names_some link.now.modes))) M12 place) result }
{
    let switched = is_switch(scope, &link.from) || is_switch(scope, &link.to);
    let named = link.modes.len() > 0;
    refuse_if(switched != named, Code::M12, place)
}

fn check_link(index: &Index, scope: &Scope, number: u64, link: &Link) -> Result<(), ModelFault>
    ensures { IsVerdict (link_breaches index.now scope.now.number scope.now.block number link.now) result }
{
    let spot = Spot::block(scope.number()).item(Kind::Link, number);
    check_end(index, scope, spot.at(Key::From).place(), &link.from)?;
    check_end(index, scope, spot.at(Key::To).place(), &link.to)?;
    check_known(index.modes(), link.modes.as_slice(), spot.at(Key::Modes))?;
    check_modes_named(scope, spot.place(), link)
}

pub(crate) fn check_links(index: &Index, scope: &Scope, links: &[Link]) -> Result<(), ModelFault>
    ensures { IsVerdict (each (link_breaches index.now scope.now.number scope.now.block) links.now) result }
{
    for (k, link) in links.iter().enumerate() {
        check_link(index, scope, k as u64, link)?;
    }
    Ok(())
}
