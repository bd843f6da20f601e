//! Matrices whose texts are known: of a box of two parts, and of a line in which one part stops the signal.

ghost use Rattle.std.specs.Prelude.{◌≡◌, ◌≤◌, ◌&&◌, nat_eq, nat_lt, length, IsTrue, IfOk};
ghost use Rattle.std.specs.List.{list_all};
ghost use Rattle.sig_flat.specs.declared.flat.FlatLink.{FlatLink};

use crate::{FaultRow, Matrix, matrix_of, matrix_text};
use sig_flat::{Fault, Flat, FlatLink, FlatTest, Node, NodeKind};
use sig_lines::TestLabel;
use sig_types::{List, Modes, Name, Signals, Text};
use std::alloc::{AllocError, Global};
use std::test::Fail;

const BOX: &[u8] =
    b"teams matrix 1\nmode -\ntests 2\ntest 0 2 X/tA\ntest 1 1 Y/tB\nstates 3\nstate 6 00 good\nstate 3 10 A.f\nstate 1 01 B.f\nend\n";

const STOPPED: &[u8] =
    b"teams matrix 1\nmode -\ntests 1\ntest 0 1 X/t\nstates 3\nstate 1 0 good\nstate 2 0 A.f\nstate 1 1 A.g\nend\n";

const ROUND: &[u8] =
    b"teams matrix 1\nmode normal\ntests 1\ntest 0 1 X/t\nstates 3\nstate 1 0 good\nstate 2 1 A.f\nstate 1 1 A.g\nend\n";

/// A matrix of two faults and two tests.
fn box_of_two(alloc: Global) -> Result<Matrix, AllocError>
    ensures faults { IfOk result (λ m. length m.faults ≡ 2) }
    ensures tests { IfOk result (λ m. length m.tests ≡ 2) }
{
    let mut faults = List::new(alloc);
    faults.push(FaultRow {
        weight: 3,
        label: Text::of(alloc, "A.f")?,
        row: [1, 0, 0, 0],
    })?;
    faults.push(FaultRow {
        weight: 1,
        label: Text::of(alloc, "B.f")?,
        row: [2, 0, 0, 0],
    })?;
    let mut tests = List::new(alloc);
    tests.push(TestLabel {
        cost: 2,
        label: Text::of(alloc, "X/tA")?,
    })?;
    tests.push(TestLabel {
        cost: 1,
        label: Text::of(alloc, "Y/tB")?,
    })?;
    Ok(Matrix {
        good: 6,
        faults,
        tests,
    })
}

#[test]
fn prints_the_box_of_two_parts(rt: HostRuntime) -> Result<(), Fail> {
    let matrix = box_of_two(rt.alloc())?;
    let text = matrix_text(rt.alloc(), &matrix, "-")?;
    assert!(rt; text.as_slice() == BOX);
    Ok(())
}

fn node(alloc: Global, path: &str, kind: NodeKind, stops: u64) -> Result<Node, AllocError>
    ensures { IfOk result (λ node. node.path ≡ path.now) }
{
    Ok(Node {
        path: Text::of(alloc, path)?,
        kind,
        stops: Signals(stops),
    })
}

/// Part A with both faults, part P that stops the signal, part Q, and point X with a test, joined by these links.
fn line(alloc: Global, normal: Name, links: List<FlatLink>) -> Result<Flat, AllocError>
    requires few { length links ≤ 4 }
    requires ends { IsTrue (list_all (λ (l : FlatLink). nat_lt l.from 4 && (nat_lt l.to 4 && nat_eq l.modes.0 1)) links) }
{
    let _normal = normal.as_bytes();
    let mut modes = List::new(alloc);
    modes.push(normal)?;
    let mut nodes = List::new(alloc);
    nodes.push(node(alloc, "A", NodeKind::Part, 0)?)?;
    nodes.push(node(alloc, "P", NodeKind::Part, 1)?)?;
    nodes.push(node(alloc, "Q", NodeKind::Part, 0)?)?;
    nodes.push(node(alloc, "X", NodeKind::Point, 0)?)?;
    let mut faults = List::new(alloc);
    faults.push(Fault {
        node: 0,
        general: false,
        signals: Signals(1),
        weight: 2,
        label: Text::of(alloc, "A.f")?,
    })?;
    faults.push(Fault {
        node: 0,
        general: true,
        signals: Signals(0),
        weight: 1,
        label: Text::of(alloc, "A.g")?,
    })?;
    let mut tests = List::new(alloc);
    tests.push(FlatTest {
        node: 3,
        cost: 1,
        signals: Signals(1),
        mode: 0,
        label: Text::of(alloc, "X/t")?,
    })?;
    Ok(Flat {
        good: 1,
        modes,
        nodes,
        links,
        faults,
        tests,
    })
}

fn link(from: u32, to: u32) -> FlatLink
    ensures from { result.from ≡ from }
    ensures to { result.to ≡ to }
    ensures modes { result.modes.0 ≡ 1 }
{
    FlatLink {
        from,
        to,
        modes: Modes(1),
    }
}

#[test]
fn a_stopped_signal_and_a_general_fault(rt: HostRuntime) -> Result<(), Fail> {
    let alloc = rt.alloc();
    let normal = Name::of("normal").expect(&rt, "a name");
    let links = List::from_vec(vec![in alloc; link(0, 1), link(1, 3)]?);
    let flat = line(alloc, normal, links)?;
    let matrix = matrix_of(alloc, &flat, None)?;
    let text = matrix_text(alloc, &matrix, "-")?;
    assert!(rt; text.as_slice() == STOPPED);
    Ok(())
}

#[test]
fn a_second_path_goes_round_the_stop(rt: HostRuntime) -> Result<(), Fail> {
    let alloc = rt.alloc();
    let normal = Name::of("normal").expect(&rt, "a name");
    let links = List::from_vec(vec![in alloc; link(0, 1), link(1, 3), link(0, 2), link(2, 3)]?);
    let flat = line(alloc, normal, links)?;
    let matrix = matrix_of(alloc, &flat, Some(0))?;
    let text = matrix_text(alloc, &matrix, "normal")?;
    assert!(rt; text.as_slice() == ROUND);
    Ok(())
}
