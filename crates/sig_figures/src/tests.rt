//! Figures whose texts are known: of a loop of two parts, and of tests that see the same or nothing.

ghost use Rattle.std.specs.Prelude.{◌≡◌, ◌≤◌, ◌&&◌, nat_eq, nat_lt, nat_le, length, IsTrue, IfOk};
ghost use Rattle.std.specs.List.{list_all};
ghost use Rattle.sig_flat.specs.declared.flat.FlatLink.{FlatLink};
ghost use Rattle.sig_flat.specs.declared.flat.Fault.{Fault};
ghost use Rattle.sig_flat.specs.declared.flat.FlatTest.{FlatTest};
ghost use Rattle.sig_types.specs.LabelText.{is_label};

use crate::{figures_of, figures_text};
use sig_classes::classes_of;
use sig_flat::{Fault, Flat, FlatLink, FlatTest, Node, NodeKind};
use sig_matrix::matrix_of;
use sig_types::{List, Modes, Name, Signals, Text};
use std::alloc::{AllocError, Global};
use std::test::Fail;

const LOOP: &[u8] =
    b"teams figures 1\nmode -\nfaults 2\ntests 1\ndetected 2 of 2\nclasses 2\nsize 2 2\nloop A\nloop B\nend\n";

const ALIKE: &[u8] =
    b"teams figures 1\nmode normal\nfaults 2\ntests 3\ndetected 1 of 7\nclasses 2\nsize 1 1\nsize 2 1\nundetected B.f\nblind Y/blind\nequal X/again X/t\nend\n";

fn link(from: u32, to: u32) -> FlatLink
    ensures from { result.from ≡ from }
    ensures to { result.to ≡ to }
    ensures modes { result.modes.0 ≡ 1 }
{
    FlatLink {
        from,
        to,
        modes: Modes(1),
    }
}

fn node(alloc: Global, path: &str, kind: NodeKind) -> Result<Node, AllocError>
    ensures { IfOk result (λ node. node.path ≡ path.now) }
{
    Ok(Node {
        path: Text::of(alloc, path)?,
        kind,
        stops: Signals(0),
    })
}

fn fault(alloc: Global, node: u32, weight: u32, label: &str) -> Result<Fault, AllocError>
    ensures node { IfOk result (λ fault. fault.node ≡ node) }
    ensures weight { IfOk result (λ fault. fault.weight ≡ weight) }
    ensures label { IfOk result (λ fault. fault.label ≡ label.now) }
{
    Ok(Fault {
        node,
        general: false,
        signals: Signals(1),
        weight,
        label: Text::of(alloc, label)?,
    })
}

fn test(alloc: Global, node: u32, label: &str) -> Result<FlatTest, AllocError>
    ensures node { IfOk result (λ test. test.node ≡ node) }
    ensures cost { IfOk result (λ test. test.cost ≡ 1) }
    ensures mode { IfOk result (λ test. test.mode ≡ 0) }
    ensures label { IfOk result (λ test. test.label ≡ label.now) }
{
    Ok(FlatTest {
        node,
        cost: 1,
        signals: Signals(1),
        mode: 0,
        label: Text::of(alloc, label)?,
    })
}

/// Parts A and B, each with a fault, and points X and Y, joined by these links, with these tests.
fn two_parts(
    alloc: Global,
    normal: Name,
    heavy: u32,
    links: List<FlatLink>,
    tests: List<FlatTest>,
) -> Result<Flat, AllocError>
    requires heavy { (1 ≤ heavy) × (heavy ≤ 1000000) }
    requires few_links { length links ≤ 32768 }
    requires ends { IsTrue (list_all (λ (l : FlatLink). nat_lt l.from 4 && (nat_lt l.to 4 && nat_eq l.modes.0 1)) links) }
    requires few_tests { length tests ≤ 256 }
    requires points { IsTrue (list_all (λ (t : FlatTest). (nat_lt t.node 4 && nat_lt t.mode 1) && (nat_le 1 t.cost && nat_le t.cost 1000000)) tests) }
    requires labels { IsTrue (list_all (λ (t : FlatTest). is_label t.label) tests) }
    ensures { IfOk result (λ flat. length flat.modes ≡ 1) }
{
    let _normal = normal.as_bytes();
    let mut modes = List::new(alloc);
    modes.push(normal)?;
    let mut nodes = List::new(alloc);
    nodes.push(node(alloc, "A", NodeKind::Part)?)?;
    nodes.push(node(alloc, "B", NodeKind::Part)?)?;
    nodes.push(node(alloc, "X", NodeKind::Point)?)?;
    nodes.push(node(alloc, "Y", NodeKind::Point)?)?;
    let mut faults = List::new(alloc);
    faults.push(fault(alloc, 0, 1, "A.f")?)?;
    faults.push(fault(alloc, 1, heavy, "B.f")?)?;
    Ok(Flat {
        good: 1,
        modes,
        nodes,
        links,
        faults,
        tests,
    })
}

#[test]
fn a_loop_of_two_parts(rt: HostRuntime) -> Result<(), Fail> {
    let alloc = rt.alloc();
    let normal = Name::of("normal").expect(&rt, "a name");
    let links = List::from_vec(vec![in alloc; link(0, 1), link(1, 0), link(1, 2)]?);
    let seen = test(alloc, 2, "X/t")?;
    let tests = List::from_vec(vec![in alloc; seen]?);
    let flat = two_parts(alloc, normal, 1, links, tests)?;
    let matrix = matrix_of(alloc, &flat, None)?;
    let classes = classes_of(alloc, &matrix)?;
    let figures = figures_of(alloc, &flat, &matrix, &classes, None)?;
    let text = figures_text(alloc, &flat, &matrix, &figures, "-")?;
    assert!(rt; text.as_slice() == LOOP);
    Ok(())
}

#[test]
fn a_second_test_and_a_blind_one(rt: HostRuntime) -> Result<(), Fail> {
    let alloc = rt.alloc();
    let normal = Name::of("normal").expect(&rt, "a name");
    let links = List::from_vec(vec![in alloc; link(0, 2)]?);
    let first = test(alloc, 2, "X/t")?;
    let again = test(alloc, 2, "X/again")?;
    let blind = test(alloc, 3, "Y/blind")?;
    let tests = List::from_vec(vec![in alloc; first, again, blind]?);
    let flat = two_parts(alloc, normal, 6, links, tests)?;
    let matrix = matrix_of(alloc, &flat, Some(0))?;
    let classes = classes_of(alloc, &matrix)?;
    let figures = figures_of(alloc, &flat, &matrix, &classes, Some(0))?;
    let text = figures_text(alloc, &flat, &matrix, &figures, "normal")?;
    assert!(rt; text.as_slice() == ALIKE);
    Ok(())
}
