//! The names in a chain.
ghost use Rattle.std.specs.Prelude.{◌≡◌, ◌≤◌, [], ◌∷◌, codes, IfOk};
ghost use Rattle.sig_sample.specs.Chain.{part_name, point_name, signals};

use sig_types::{List, Name};
use std::alloc::{AllocError, Global};

pub fn chain_name() -> Name
    ensures { result ≡ codes "chain" }
{
    match Name::of("chain") {
        Some(name) => name,
        None => unreachable!(),
    }
}

pub fn test_name() -> Name
    ensures { result ≡ codes "t" }
{
    match Name::of("t") {
        Some(name) => name,
        None => unreachable!(),
    }
}

fn signal_name() -> Name
    ensures { result ≡ codes "s" }
{
    match Name::of("s") {
        Some(name) => name,
        None => unreachable!(),
    }
}

/// The one signal.
pub fn signals(alloc: Global) -> Result<List<Name>, AllocError>
    ensures { IfOk result (λ names. names ≡ signals) }
{
    let mut names = List::new(alloc);
    names.push(signal_name())?;
    Ok(names)
}

#[tactic(auto, using(crate::proofs::NameLaws::part_is_name))]
pub fn part_name(alloc: Global, i: u32) -> Result<Name, AllocError>
    requires { i ≤ 100 }
    ensures { IfOk result (λ name. name ≡ part_name i) }
{
    let text = format!(in alloc; "p{i}")?;
    match Name::of(text.as_str()) {
        Some(name) => Ok(name),
        None => unreachable!(),
    }
}

#[tactic(auto, using(crate::proofs::NameLaws::point_is_name))]
pub fn point_name(alloc: Global, i: u32) -> Result<Name, AllocError>
    requires { i ≤ 100 }
    ensures { IfOk result (λ name. name ≡ point_name i) }
{
    let text = format!(in alloc; "x{i}")?;
    match Name::of(text.as_str()) {
        Some(name) => Ok(name),
        None => unreachable!(),
    }
}
