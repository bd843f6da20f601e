//! The chain, list by list: parts, points, and the links from each part to the part behind it and to its point.
ghost use Rattle.std.specs.Prelude.{◌≡◌, ◌≤◌, ◌-◌, ◌++◌, [], ◌∷◌, map, IfOk, OnOk};
ghost use Rattle.std.specs.List.{range_with_len};
ghost use Rattle.sig_types.specs.Breaches.{breaches};
ghost use Rattle.sig_sample.specs.Chain.{part, point, step, tap, chain, chain_block, part_weight, test_cost, end_at, most_parts};

use crate::names::{chain_name, part_name, point_name, signals, test_name};
use sig_types::{
    Block, Cost, End, Functional, Good, Link, List, Model, Name, Part, Point, Test, Weight,
};
use std::alloc::{AllocError, Global};

fn weight(i: u32) -> Weight
    requires { i ≤ 100 }
    ensures { result ≡ part_weight i }
{
    match Weight::of(u64::from(1 + 7 * i % 10)) {
        Some(weight) => weight,
        None => unreachable!(),
    }
}

fn cost(i: u32) -> Cost
    requires { i ≤ 100 }
    ensures { result ≡ test_cost i }
{
    match Cost::of(u64::from(1 + 3 * i % 4)) {
        Some(cost) => cost,
        None => unreachable!(),
    }
}

fn good() -> Good
    ensures { result ≡ 10 }
{
    match Good::of(10) {
        Some(good) => good,
        None => unreachable!(),
    }
}

fn part(alloc: Global, i: u32) -> Result<Part, AllocError>
    requires { i ≤ 100 }
    ensures { IfOk result (λ p. p ≡ part i) }
{
    Ok(Part {
        name: part_name(alloc, i)?,
        functional: Some(Functional {
            weight: weight(i),
            signals: signals(alloc)?,
        }),
        general: None,
        stops: List::new(alloc),
    })
}

fn point(alloc: Global, i: u32) -> Result<Point, AllocError>
    requires { i ≤ 100 }
    ensures { IfOk result (λ p. p ≡ point i) }
{
    let mut tests = List::new(alloc);
    tests.push(Test {
        name: test_name(),
        cost: cost(i),
        signals: signals(alloc)?,
        mode: None,
    })?;
    Ok(Point {
        name: point_name(alloc, i)?,
        tests,
    })
}

fn end_at(name: Name) -> End
    ensures { result ≡ end_at name }
{
    End {
        first: name,
        second: None,
    }
}

/// From a part to the part behind it.
fn step(alloc: Global, i: u32) -> Result<Link, AllocError>
    requires { i ≤ 99 }
    ensures { IfOk result (λ l. l ≡ step i) }
{
    Ok(Link {
        from: end_at(part_name(alloc, i)?),
        to: end_at(part_name(alloc, i + 1)?),
        modes: List::new(alloc),
    })
}

/// From a part to its point.
fn tap(alloc: Global, i: u32) -> Result<Link, AllocError>
    requires { i ≤ 100 }
    ensures { IfOk result (λ l. l ≡ tap i) }
{
    Ok(Link {
        from: end_at(part_name(alloc, i)?),
        to: end_at(point_name(alloc, i)?),
        modes: List::new(alloc),
    })
}

#[tactic(auto, using(crate::proofs::NameLaws::one_more))]
fn parts(alloc: Global, n: u32) -> Result<List<Part>, AllocError>
    requires { n ≤ 100 }
    ensures { IfOk result (λ l. l ≡ map part (range_with_len 1 n)) }
{
    let mut parts = List::new(alloc);
    for i in 0..n {
        parts.push(part(alloc, i + 1)?)?;
    }
    Ok(parts)
}

#[tactic(auto, using(crate::proofs::NameLaws::one_more))]
fn points(alloc: Global, n: u32) -> Result<List<Point>, AllocError>
    requires { n ≤ 100 }
    ensures { IfOk result (λ l. l ≡ map point (range_with_len 1 n)) }
{
    let mut points = List::new(alloc);
    for i in 0..n {
        points.push(point(alloc, i + 1)?)?;
    }
    Ok(points)
}

#[tactic(auto, using(crate::proofs::NameLaws::one_more))]
fn steps(alloc: Global, n: u32) -> Result<List<Link>, AllocError>
    requires { n ≤ 99 }
    ensures { IfOk result (λ l. l ≡ map step (range_with_len 1 n)) }
{
    let mut steps = List::new(alloc);
    for i in 0..n {
        steps.push(step(alloc, i + 1)?)?;
    }
    Ok(steps)
}

/// Adds the links to the points.
#[tactic(auto, using(crate::proofs::NameLaws::one_more_behind))]
fn with_taps(alloc: Global, links: List<Link>, n: u32) -> Result<List<Link>, AllocError>
    requires { n ≤ 100 }
    ensures { IfOk result (λ l. l ≡ links ++ map tap (range_with_len 1 n)) }
{
    let mut links = links;
    for i in 0..n {
        links.push(tap(alloc, i + 1)?)?;
    }
    Ok(links)
}

fn block(alloc: Global, n: u32) -> Result<Block, AllocError>
    requires most { n ≤ 100 }
    requires least { 1 ≤ n }
    ensures { IfOk result (λ b. b ≡ chain_block n) }
{
    let steps = steps(alloc, n - 1)?;
    let links = with_taps(alloc, steps, n)?;
    Ok(Block {
        name: chain_name(),
        ports: List::new(alloc),
        switches: List::new(alloc),
        parts: parts(alloc, n)?,
        uses: List::new(alloc),
        points: points(alloc, n)?,
        links,
    })
}

/// The chain of n parts, 1 to 100. Part i has a functional fault of weight `1 + 7*i % 10`, and the test at its point
/// costs `1 + 3*i % 4`. No fault has the weight 10. `Model::check` finds no breach in it.
#[tactic(auto, using(crate::proofs::Accepted::no_breach))]
pub fn sample(alloc: Global, n: u32) -> Result<Model, AllocError>
    requires least { 1 ≤ n }
    requires most { n ≤ most_parts }
    ensures chain { IfOk result (λ model. model ≡ chain n) }
    ensures sound { IfOk result (λ model. breaches model ≡ []) }
{
    let mut blocks = List::new(alloc);
    blocks.push(block(alloc, n)?)?;
    Ok(Model {
        good: good(),
        top: chain_name(),
        signals: signals(alloc)?,
        modes: List::new(alloc),
        blocks,
    })
}
