//! A system by hand: a cell with ports, a switch, a part and a test point is used twice. What it unfolds to was
//! worked out on paper.

use crate::{Flat, flatten};
use sig_types::{
    Block, Cost, End, Functional, Good, Link, List, Model, Name, Part, Point, Test, Used, Weight,
};
use std::alloc::Global;
use std::test::Fail;

/// Nodes, links with their modes as bits (1 is off, 2 is on), faults with weights, tests with costs and modes.
const UNFOLDED: &str = "src\na/in\na/out\na/k\na/r\na/p\nb/in\nb/out\nb/k\nb/r\nb/p\n\
    0-1 3\n2-6 3\n1-3 2\n3-4 2\n4-2 3\n4-5 3\n6-8 2\n8-9 2\n9-7 3\n9-10 3\n\
    0 5 src.f\n4 2 a/r.f\n4 1 a/r.g\n9 2 b/r.f\n9 1 b/r.g\n\
    5 3 1 a/p/t\n10 3 1 b/p/t\n";

fn name_of(text: &str) -> Result<Name, Fail> {
    Ok(Name::of(text).ok_or("no name")?)
}

fn names_of(alloc: Global, texts: &[&str]) -> Result<List<Name>, Fail> {
    let mut names = List::new(alloc);
    for text in texts {
        names.push(name_of(*text)?)?;
    }
    Ok(names)
}

fn part(alloc: Global, name: &str, weight: u64, general: Option<Weight>) -> Result<Part, Fail> {
    Ok(Part {
        name: name_of(name)?,
        functional: Some(Functional {
            weight: Weight::of(weight).ok_or("no weight")?,
            signals: names_of(alloc, &["v"])?,
        }),
        general,
        stops: List::new(alloc),
    })
}

fn end_of(first: &str, second: Option<&str>) -> Result<End, Fail> {
    let second = match second {
        Some(port) => Some(name_of(port)?),
        None => None,
    };
    Ok(End {
        first: name_of(first)?,
        second,
    })
}

fn link(alloc: Global, from: End, to: End, modes: &[&str]) -> Result<Link, Fail> {
    Ok(Link {
        from,
        to,
        modes: names_of(alloc, modes)?,
    })
}

fn inside(alloc: Global, from: &str, to: &str, modes: &[&str]) -> Result<Link, Fail> {
    link(alloc, end_of(from, None)?, end_of(to, None)?, modes)
}

fn used(name: &str) -> Result<Used, Fail> {
    Ok(Used {
        name: name_of(name)?,
        block: name_of("cell")?,
    })
}

fn point(alloc: Global) -> Result<Point, Fail> {
    let mut tests = List::new(alloc);
    tests.push(Test {
        name: name_of("t")?,
        cost: Cost::of(3).ok_or("no cost")?,
        signals: names_of(alloc, &["v"])?,
        mode: Some(name_of("on")?),
    })?;
    Ok(Point {
        name: name_of("p")?,
        tests,
    })
}

fn cell(alloc: Global) -> Result<Block, Fail> {
    let mut parts = List::new(alloc);
    parts.push(part(alloc, "r", 2, Weight::of(1))?)?;
    let mut points = List::new(alloc);
    points.push(point(alloc)?)?;
    let mut links = List::new(alloc);
    links.push(inside(alloc, "in", "k", &["on"])?)?;
    links.push(inside(alloc, "k", "r", &["on"])?)?;
    links.push(inside(alloc, "r", "out", &[])?)?;
    links.push(inside(alloc, "r", "p", &[])?)?;
    Ok(Block {
        name: name_of("cell")?,
        ports: names_of(alloc, &["in", "out"])?,
        switches: names_of(alloc, &["k"])?,
        parts,
        uses: List::new(alloc),
        points,
        links,
    })
}

fn top(alloc: Global) -> Result<Block, Fail> {
    let mut parts = List::new(alloc);
    parts.push(part(alloc, "src", 5, None)?)?;
    let mut uses = List::new(alloc);
    uses.push(used("a")?)?;
    uses.push(used("b")?)?;
    let mut links = List::new(alloc);
    let first = end_of("a", Some("in"))?;
    links.push(link(alloc, end_of("src", None)?, first, &[])?)?;
    let out = end_of("a", Some("out"))?;
    links.push(link(alloc, out, end_of("b", Some("in"))?, &[])?)?;
    Ok(Block {
        name: name_of("top")?,
        ports: List::new(alloc),
        switches: List::new(alloc),
        parts,
        uses,
        points: List::new(alloc),
        links,
    })
}

fn told(alloc: Global, flat: &Flat) -> Result<String, Fail> {
    let mut text = String::new(alloc);
    for node in flat.nodes.as_slice() {
        let path = node.path.as_str();
        text.push_str(format!(in alloc; "{path}\n")?.as_str())?;
    }
    for link in flat.links.as_slice() {
        let modes = link.modes.0;
        let (from, to) = (link.from, link.to);
        text.push_str(format!(in alloc; "{from}-{to} {modes}\n")?.as_str())?;
    }
    for fault in flat.faults.as_slice() {
        let label = fault.label.as_str();
        let (node, weight) = (fault.node, fault.weight);
        text.push_str(format!(in alloc; "{node} {weight} {label}\n")?.as_str())?;
    }
    for test in flat.tests.as_slice() {
        let label = test.label.as_str();
        let (node, cost, mode) = (test.node, test.cost, test.mode);
        text.push_str(format!(in alloc; "{node} {cost} {mode} {label}\n")?.as_str())?;
    }
    Ok(text)
}

#[test]
fn a_cell_that_is_used_twice(rt: HostRuntime) -> Result<(), Fail> {
    let alloc = rt.alloc();
    let mut blocks = List::new(alloc);
    blocks.push(cell(alloc)?)?;
    blocks.push(top(alloc)?)?;
    let model = Model {
        good: Good::of(1).ok_or("no weight")?,
        top: name_of("top")?,
        signals: names_of(alloc, &["v"])?,
        modes: names_of(alloc, &["off", "on"])?,
        blocks,
    };
    let Ok(valid) = model.check(alloc) else {
        return Err(Fail::from("refused"));
    };
    let Ok(flat) = flatten(alloc, &valid) else {
        return Err(Fail::from("too large"));
    };
    let text = told(alloc, &flat)?;
    assert!(rt; text.as_str() == UNFOLDED);
    Ok(())
}
