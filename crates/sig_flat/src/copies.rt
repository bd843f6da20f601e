//! The flat items: for each instance a copy of its block's pattern, with the prefix of the instance before
//! the names, and the number of its first node added to the places.
ghost use Rattle.std.specs.Prelude.{◌≡◌, ◌+◌, ◌^◌, ◌<◌, ◌≤◌, ◌++◌, true, cond, map, length, slice_index_or, [], OnOk, IfOk};
ghost use Rattle.std.specs.List.{Contains, flat_map};
ghost use Rattle.sig_flat.specs.declared.walk.Placed.{Placed};
ghost use Rattle.sig_flat.specs.Placed.{node_copy, link_copy, fault_copy, test_copy, node_copies, link_copies, fault_copies, test_copies, no_pattern, LinksFit, FaultsFit, TestsFit, WeightsFit, CostsFit, IsShown, PrefixesShown, NodesLabelled, FaultsLabelled, TestsLabelled};
ghost use Rattle.sig_types.specs.LabelText.{is_label};

use crate::flat::{Fault, FlatLink, FlatTest, Node};
use crate::links::LinkPattern;
use crate::pattern::{FaultPattern, NodePattern, Pattern, TestPattern};
use crate::walk::Placed;
use sig_types::{List, Text};
use std::alloc::{AllocError, Global};

fn copy_of_node(alloc: Global, placed: &Placed, node: &NodePattern) -> Result<Node, AllocError>
    requires { IsShown placed.now.prefix }
    ensures copy { IfOk result (λ copy. copy ≡ node_copy placed.now node.now) }
    ensures label { IfOk result (λ copy. is_label copy.path ≡ true) }
{
    let prefix = placed.prefix.as_str();
    let name = node.name.as_str();
    let path = Text::from_string(format!(in alloc; "{prefix}{name}")?);
    Ok(Node {
        path,
        kind: node.kind,
        stops: node.stops,
    })
}

fn copy_nodes(
    alloc: Global,
    placed: &Placed,
    patterns: &[NodePattern],
    nodes: &mut List<Node>,
) -> Result<(), AllocError>
    requires { IsShown placed.now.prefix }
    ensures nodes { OnOk result (nodes.new ≡ nodes.old ++ map (node_copy placed.now) patterns.now) }
    ensures labels { OnOk result (NodesLabelled nodes.old → NodesLabelled nodes.new) }
{
    for node in patterns {
        nodes.push(copy_of_node(alloc, placed, node)?)?;
    }
    Ok(())
}

/// The nodes, in the order of the walk.
pub fn nodes_of_all(
    alloc: Global,
    patterns: &[Pattern],
    placed: &[Placed],
) -> Result<List<Node>, AllocError>
    requires there { (p : Placed) → Contains placed.now p → p.block < length patterns.now }
    requires shown { PrefixesShown placed.now }
    ensures nodes { IfOk result (λ nodes. nodes ≡ flat_map (node_copies patterns.now) placed.now) }
    ensures labels { IfOk result NodesLabelled }
{
    let mut nodes = List::new(alloc);
    for instance in placed {
        let pattern = &patterns[instance.block as usize];
        copy_nodes(alloc, instance, pattern.nodes.as_slice(), &mut nodes)?;
    }
    Ok(nodes)
}

fn copy_of_link(placed: &Placed, link: &LinkPattern) -> FlatLink
    requires from { placed.now.start + link.now.from < 2 ^ 32 }
    requires to { placed.now.start + link.now.to < 2 ^ 32 }
    ensures { result ≡ link_copy placed.now link.now }
{
    FlatLink {
        from: (placed.start as u64 + link.from) as u32,
        to: (placed.start as u64 + link.to) as u32,
        modes: link.modes,
    }
}

fn copy_links(
    placed: &Placed,
    patterns: &[LinkPattern],
    links: &mut List<FlatLink>,
) -> Result<(), AllocError>
    requires { LinksFit placed.now patterns.now }
    ensures { OnOk result (links.new ≡ links.old ++ map (link_copy placed.now) patterns.now) }
{
    for link in patterns {
        links.push(copy_of_link(placed, link))?;
    }
    Ok(())
}

/// The links, in the order of the walk.
pub fn links_of_all(
    alloc: Global,
    patterns: &[List<LinkPattern>],
    placed: &[Placed],
) -> Result<List<FlatLink>, AllocError>
    requires there { (p : Placed) → Contains placed.now p → p.block < length patterns.now }
    requires fit { (p : Placed) → Contains placed.now p → LinksFit p (slice_index_or patterns.now p.block []) }
    ensures { IfOk result (λ links. links ≡ flat_map (link_copies patterns.now) placed.now) }
{
    let mut links = List::new(alloc);
    for instance in placed {
        let pattern = &patterns[instance.block as usize];
        copy_links(instance, pattern.as_slice(), &mut links)?;
    }
    Ok(links)
}

/// The letter that ends a fault's label.
fn letter_of(general: bool) -> char
    ensures { result ≡ cond general 103 102 }
{
    if general { 'g' } else { 'f' }
}

fn copy_of_fault(alloc: Global, placed: &Placed, fault: &FaultPattern) -> Result<Fault, AllocError>
    requires at { placed.now.start + fault.now.at < 2 ^ 32 }
    requires shown { IsShown placed.now.prefix }
    ensures copy { IfOk result (λ copy. copy ≡ fault_copy placed.now fault.now) }
    ensures weight { IfOk result (λ copy. (1 ≤ copy.weight) × (copy.weight ≤ 1000000)) }
    ensures label { IfOk result (λ copy. is_label copy.label ≡ true) }
{
    let prefix = placed.prefix.as_str();
    let part = fault.part.as_str();
    let letter = letter_of(fault.general);
    let label = Text::from_string(format!(in alloc; "{prefix}{part}.{letter}")?);
    Ok(Fault {
        node: (placed.start as usize + fault.at) as u32,
        general: fault.general,
        signals: fault.signals,
        weight: fault.weight.get(),
        label,
    })
}

fn copy_faults(
    alloc: Global,
    placed: &Placed,
    patterns: &[FaultPattern],
    faults: &mut List<Fault>,
) -> Result<(), AllocError>
    requires fit { FaultsFit placed.now patterns.now }
    requires shown { IsShown placed.now.prefix }
    ensures faults { OnOk result (faults.new ≡ faults.old ++ map (fault_copy placed.now) patterns.now) }
    ensures weights { OnOk result (WeightsFit faults.old → WeightsFit faults.new) }
    ensures labels { OnOk result (FaultsLabelled faults.old → FaultsLabelled faults.new) }
{
    for fault in patterns {
        faults.push(copy_of_fault(alloc, placed, fault)?)?;
    }
    Ok(())
}

/// The faults, by node, and of a part the functional one before the general one.
pub fn faults_of_all(
    alloc: Global,
    patterns: &[Pattern],
    placed: &[Placed],
) -> Result<List<Fault>, AllocError>
    requires there { (p : Placed) → Contains placed.now p → p.block < length patterns.now }
    requires fit { (p : Placed) → Contains placed.now p → FaultsFit p (slice_index_or patterns.now p.block no_pattern).faults }
    requires shown { PrefixesShown placed.now }
    ensures faults { IfOk result (λ faults. faults ≡ flat_map (fault_copies patterns.now) placed.now) }
    ensures weights { IfOk result WeightsFit }
    ensures labels { IfOk result FaultsLabelled }
{
    let mut faults = List::new(alloc);
    for instance in placed {
        let pattern = &patterns[instance.block as usize];
        copy_faults(alloc, instance, pattern.faults.as_slice(), &mut faults)?;
    }
    Ok(faults)
}

fn copy_of_test(alloc: Global, placed: &Placed, test: &TestPattern) -> Result<FlatTest, AllocError>
    requires at { placed.now.start + test.now.at < 2 ^ 32 }
    requires shown { IsShown placed.now.prefix }
    ensures copy { IfOk result (λ copy. copy ≡ test_copy placed.now test.now) }
    ensures cost { IfOk result (λ copy. (1 ≤ copy.cost) × (copy.cost ≤ 1000000)) }
    ensures label { IfOk result (λ copy. is_label copy.label ≡ true) }
{
    let prefix = placed.prefix.as_str();
    let point = test.point.as_str();
    let name = test.name.as_str();
    let label = Text::from_string(format!(in alloc; "{prefix}{point}/{name}")?);
    Ok(FlatTest {
        node: (placed.start as usize + test.at) as u32,
        cost: test.cost.get(),
        signals: test.signals,
        mode: test.mode,
        label,
    })
}

fn copy_tests(
    alloc: Global,
    placed: &Placed,
    patterns: &[TestPattern],
    tests: &mut List<FlatTest>,
) -> Result<(), AllocError>
    requires fit { TestsFit placed.now patterns.now }
    requires shown { IsShown placed.now.prefix }
    ensures tests { OnOk result (tests.new ≡ tests.old ++ map (test_copy placed.now) patterns.now) }
    ensures costs { OnOk result (CostsFit tests.old → CostsFit tests.new) }
    ensures labels { OnOk result (TestsLabelled tests.old → TestsLabelled tests.new) }
{
    for test in patterns {
        tests.push(copy_of_test(alloc, placed, test)?)?;
    }
    Ok(())
}

/// The tests, by the nodes of their points, and of a point in their order.
pub fn tests_of_all(
    alloc: Global,
    patterns: &[Pattern],
    placed: &[Placed],
) -> Result<List<FlatTest>, AllocError>
    requires there { (p : Placed) → Contains placed.now p → p.block < length patterns.now }
    requires fit { (p : Placed) → Contains placed.now p → TestsFit p (slice_index_or patterns.now p.block no_pattern).tests }
    requires shown { PrefixesShown placed.now }
    ensures tests { IfOk result (λ tests. tests ≡ flat_map (test_copies patterns.now) placed.now) }
    ensures costs { IfOk result CostsFit }
    ensures labels { IfOk result TestsLabelled }
{
    let mut tests = List::new(alloc);
    for instance in placed {
        let pattern = &patterns[instance.block as usize];
        copy_tests(alloc, instance, pattern.tests.as_slice(), &mut tests)?;
    }
    Ok(tests)
}
