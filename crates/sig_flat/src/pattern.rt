//! The pattern of a block: its own nodes, faults and tests, with sets as bits, and with places that
//! count from the first node of an instance. It is made once for each block; each instance is then a
//! copy of it, with its path put before the names and its first node's number added to the places.
ghost use Rattle.std.specs.Prelude.{◌≡◌, ◌+◌, ◌≤◌, ◌++◌, map, length, OnOk, IfOk};
ghost use Rattle.sig_flat.specs.Patterns.{plain_pattern, part_pattern, point_pattern, node_patterns, functional_patterns, general_patterns, fault_patterns, first_point, mode_number, test_pattern, test_patterns, pattern_of};

use crate::flat::NodeKind;
use crate::lookups::mode_place;
use crate::sets::signals_of;
use sig_types::{Block, Cost, List, Name, Part, Point, Signals, Test, Valid, Weight};
use std::alloc::{AllocError, Global};

#[derive(Clone, Copy, Debug)]
pub struct NodePattern {
    pub name: Name,
    pub kind: NodeKind,
    pub stops: Signals,
}

#[derive(Clone, Copy, Debug)]
pub struct FaultPattern {
    /// The place of the part among the block's nodes.
    pub at: usize,
    pub part: Name,
    pub general: bool,
    pub signals: Signals,
    pub weight: Weight,
}

#[derive(Clone, Copy, Debug)]
pub struct TestPattern {
    /// The place of the point among the block's nodes.
    pub at: usize,
    pub point: Name,
    pub name: Name,
    pub cost: Cost,
    pub signals: Signals,
    pub mode: u32,
}

#[derive(Debug, Drop)]
pub struct Pattern {
    pub nodes: List<NodePattern>,
    pub faults: List<FaultPattern>,
    pub tests: List<TestPattern>,
}

fn add_plain(
    nodes: &mut List<NodePattern>,
    names: &[Name],
    kind: NodeKind,
) -> Result<(), AllocError>
    ensures { OnOk result (nodes.new ≡ nodes.old ++ map (plain_pattern kind) names.now) }
{
    for name in names {
        nodes.push(NodePattern {
            name: *name,
            kind,
            stops: Signals(0),
        })?;
    }
    Ok(())
}

fn add_parts(nodes: &mut List<NodePattern>, valid: &Valid, parts: &[Part]) -> Result<(), AllocError>
    requires { length valid.now.signals ≤ 64 }
    ensures { OnOk result (nodes.new ≡ nodes.old ++ map (part_pattern valid.now.signals) parts.now) }
{
    for part in parts {
        nodes.push(NodePattern {
            name: part.name,
            kind: NodeKind::Part,
            stops: signals_of(valid, part.stops.as_slice()),
        })?;
    }
    Ok(())
}

fn add_points(nodes: &mut List<NodePattern>, points: &[Point]) -> Result<(), AllocError>
    ensures { OnOk result (nodes.new ≡ nodes.old ++ map point_pattern points.now) }
{
    for point in points {
        nodes.push(NodePattern {
            name: point.name,
            kind: NodeKind::Point,
            stops: Signals(0),
        })?;
    }
    Ok(())
}

#[tactic(auto, unfolding(crate::specs::Patterns::node_patterns))]
fn nodes_of(alloc: Global, valid: &Valid, block: &Block) -> Result<List<NodePattern>, AllocError>
    requires { length valid.now.signals ≤ 64 }
    ensures { IfOk result (λ nodes. nodes ≡ node_patterns valid.now.signals block.now) }
{
    let mut nodes = List::new(alloc);
    add_plain(&mut nodes, block.ports.as_slice(), NodeKind::Port)?;
    add_plain(&mut nodes, block.switches.as_slice(), NodeKind::Switch)?;
    add_parts(&mut nodes, valid, block.parts.as_slice())?;
    add_points(&mut nodes, block.points.as_slice())?;
    Ok(nodes)
}

fn add_functional(
    faults: &mut List<FaultPattern>,
    valid: &Valid,
    at: usize,
    part: &Part,
) -> Result<(), AllocError>
    requires { length valid.now.signals ≤ 64 }
    ensures { OnOk result (faults.new ≡ faults.old ++ functional_patterns valid.now.signals at part.now.name part.now.functional) }
{
    if let Some(fault) = &part.functional {
        faults.push(FaultPattern {
            at,
            part: part.name,
            general: false,
            signals: signals_of(valid, fault.signals.as_slice()),
            weight: fault.weight,
        })?;
    }
    Ok(())
}

fn add_general(faults: &mut List<FaultPattern>, at: usize, part: &Part) -> Result<(), AllocError>
    ensures { OnOk result (faults.new ≡ faults.old ++ general_patterns at part.now.name part.now.general) }
{
    if let Some(weight) = &part.general {
        faults.push(FaultPattern {
            at,
            part: part.name,
            general: true,
            signals: Signals(0),
            weight: *weight,
        })?;
    }
    Ok(())
}

/// The faults, where the block has so many nodes: points stand last, and parts before them.
#[tactic(auto, unfolding(crate::specs::Patterns::fault_patterns))]
fn faults_of(
    alloc: Global,
    valid: &Valid,
    block: &Block,
    nodes: usize,
) -> Result<List<FaultPattern>, AllocError>
    requires signals { length valid.now.signals ≤ 64 }
    requires nodes { nodes ≡ first_point block.now + length block.now.points }
    ensures { IfOk result (λ faults. faults ≡ fault_patterns valid.now.signals block.now) }
{
    let first = nodes - block.points.len() - block.parts.len();
    let mut faults = List::new(alloc);
    for (k, part) in block.parts.as_slice().iter().enumerate() {
        add_functional(&mut faults, valid, first + k, part)?;
        add_general(&mut faults, first + k, part)?;
    }
    Ok(faults)
}

fn mode_of(valid: &Valid, mode: &Option<Name>) -> u32
    requires { length valid.now.modes ≤ 32 }
    ensures { result ≡ mode_number valid.now.modes mode.now }
{
    match mode {
        Some(name) => mode_place(valid, name) as u32,
        None => 0,
    }
}

fn add_tests(
    tests: &mut List<TestPattern>,
    valid: &Valid,
    at: usize,
    point: &Point,
) -> Result<(), AllocError>
    requires signals { length valid.now.signals ≤ 64 }
    requires modes { length valid.now.modes ≤ 32 }
    ensures { OnOk result (tests.new ≡ tests.old ++ map (test_pattern valid.now.signals valid.now.modes at point.now.name) point.now.tests) }
{
    for test in point.tests.as_slice() {
        tests.push(TestPattern {
            at,
            point: point.name,
            name: test.name,
            cost: test.cost,
            signals: signals_of(valid, test.signals.as_slice()),
            mode: mode_of(valid, &test.mode),
        })?;
    }
    Ok(())
}

#[tactic(auto, unfolding(crate::specs::Patterns::test_patterns))]
fn tests_of(
    alloc: Global,
    valid: &Valid,
    block: &Block,
    nodes: usize,
) -> Result<List<TestPattern>, AllocError>
    requires signals { length valid.now.signals ≤ 64 }
    requires modes { length valid.now.modes ≤ 32 }
    requires nodes { nodes ≡ first_point block.now + length block.now.points }
    ensures { IfOk result (λ tests. tests ≡ test_patterns valid.now.signals valid.now.modes block.now) }
{
    let first = nodes - block.points.len();
    let mut tests = List::new(alloc);
    for (k, point) in block.points.as_slice().iter().enumerate() {
        add_tests(&mut tests, valid, first + k, point)?;
    }
    Ok(tests)
}

/// The pattern of a block of the model.
pub fn pattern_of_block(alloc: Global, valid: &Valid, block: &Block) -> Result<Pattern, AllocError>
    requires signals { length valid.now.signals ≤ 64 }
    requires modes { length valid.now.modes ≤ 32 }
    ensures { IfOk result (λ pattern. pattern ≡ pattern_of valid.now.signals valid.now.modes block.now) }
{
    let nodes = nodes_of(alloc, valid, block)?;
    let faults = faults_of(alloc, valid, block, nodes.len())?;
    let tests = tests_of(alloc, valid, block, nodes.len())?;
    Ok(Pattern {
        nodes,
        faults,
        tests,
    })
}

/// The patterns of the blocks.
pub fn patterns_of(
    alloc: Global,
    valid: &Valid,
    blocks: &[Block],
) -> Result<Vec<Pattern>, AllocError>
    requires signals { length valid.now.signals ≤ 64 }
    requires modes { length valid.now.modes ≤ 32 }
    ensures { IfOk result (λ patterns. patterns.items ≡ map (pattern_of valid.now.signals valid.now.modes) blocks.now) }
{
    let mut patterns = Vec::with_capacity(alloc, blocks.len())?;
    for block in blocks {
        patterns.push(pattern_of_block(alloc, valid, block)?)?;
    }
    Ok(patterns)
}
