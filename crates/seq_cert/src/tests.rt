//! The printed report of two faults, each seen by a test of its own, byte by byte; and reports read.
ghost use Rattle.std.specs.Prelude.{◌≡◌, ◌≤◌, [], ◌∷◌, codes, IfOk};
ghost use Rattle.seq_theory.specs.Tree.{AsksOnly};
ghost use Rattle.seq_inst.specs.Trees.{tree_of};

use crate::{BadCode, BadLine, Report, ReportFault, read_report, report_of};
use seq_inst::{Group, Instance, Outcome, Row, Strategy, Verdict, ask_first, checked_holds};
use sig_lines::{Labels, StateLabel, TestLabel};
use sig_types::{List, Text};
use std::alloc::{AllocError, Global};
use std::test::Fail;

/// Weights 6, 3, 1; test 0 costs 2 and fails for class 1, test 1 costs 1 and fails for class 2.
fn two_faults(alloc: Global) -> Result<Instance, AllocError>
    ensures weights { IfOk result (λ i. i.weights.items ≡ 6 ∷ 3 ∷ 1 ∷ []) }
    ensures costs { IfOk result (λ i. i.costs.items ≡ 2 ∷ 1 ∷ []) }
{
    let weights = vec![in alloc; 6, 3, 1]?;
    let costs = vec![in alloc; 2, 1]?;
    let passes = vec![in alloc;
        Group([5, 0, 0, 0, 0, 0, 0, 0]),
        Group([3, 0, 0, 0, 0, 0, 0, 0]),
    ]?;
    checked_holds();
    Ok(Instance::new(weights, costs, passes))
}

fn state(alloc: Global, weight: u32, label: &str, class: u32) -> Result<StateLabel, AllocError>
    ensures { IfOk result (λ s. s ≡ record { weight = weight; label = label.now; class = class }) }
{
    let label = Text::of(alloc, label)?;
    Ok(StateLabel {
        weight,
        label,
        class,
    })
}

fn test(alloc: Global, cost: u32, label: &str) -> Result<TestLabel, AllocError>
    ensures { IfOk result (λ t. t ≡ record { cost = cost; label = label.now }) }
{
    let label = Text::of(alloc, label)?;
    Ok(TestLabel { cost, label })
}

fn states(alloc: Global) -> Result<List<StateLabel>, AllocError>
    ensures { IfOk result (λ l. l ≡ record { weight = 6; label = codes "good"; class = 0 } ∷ record { weight = 3; label = codes "A.f"; class = 1 } ∷ record { weight = 1; label = codes "B.f"; class = 2 } ∷ []) }
{
    let mut states = List::new(alloc);
    states.push(state(alloc, 6, "good", 0)?)?;
    states.push(state(alloc, 3, "A.f", 1)?)?;
    states.push(state(alloc, 1, "B.f", 2)?)?;
    Ok(states)
}

fn tests(alloc: Global) -> Result<List<TestLabel>, AllocError>
    ensures { IfOk result (λ l. l ≡ record { cost = 2; label = codes "X/tA" } ∷ record { cost = 1; label = codes "Y/tB" } ∷ []) }
{
    let mut tests = List::new(alloc);
    tests.push(test(alloc, 2, "X/tA")?)?;
    tests.push(test(alloc, 1, "Y/tB")?)?;
    Ok(tests)
}

/// Test 0, and where it passes test 1.
fn strategy(alloc: Global) -> Result<Strategy, AllocError>
    ensures { IfOk result (λ s. AsksOnly 2 (tree_of s)) }
{
    let second = ask_first(alloc, 1, Strategy::Leaf, Strategy::Leaf)?;
    ask_first(alloc, 0, second, Strategy::Leaf)
}

fn group(bits: u64) -> Group {
    Group([bits, 0, 0, 0, 0, 0, 0, 0])
}

/// The report's text for an outcome of these rows.
fn text(
    alloc: Global,
    verdict: Verdict,
    low: u64,
    rows: Vec<Row>,
    missed: Option<Group>,
) -> Result<Vec<u8>, AllocError>
    requires { low ≤ 27 }
{
    let inst = two_faults(alloc)?;
    let mode = Text::of(alloc, "-")?;
    let states = states(alloc)?;
    let tests = tests(alloc)?;
    let labels = Labels {
        mode,
        states,
        tests,
    };
    let outcome = Outcome {
        verdict,
        strategy: strategy(alloc)?,
        cost: 27,
        low,
        limit: 4000,
        rows,
        missed,
    };
    report_of(alloc, &inst, &outcome, &labels)
}

#[test]
fn a_report_without_groups(rt: HostRuntime) -> Result<(), Fail> {
    let alloc = rt.alloc();
    let bytes = text(alloc, Verdict::Optimal, 27, Vec::new(alloc), None)?;
    assert_eq!(rt; bytes.len(), 253);
    assert_eq!(rt;
        bytes.as_slice(),
        b"teams report 1\nmode -\nstates 3\nclasses 3\ntests 2\nweight 10\nresult optimal\ncost 27\nlow 27\ngap 0\nlimit 4000\ngroups 0\nclass 0 6 1\nstate 6 good\nclass 1 3 1\nstate 3 A.f\nclass 2 1 1\nstate 1 B.f\ntest 0 2 X/tA\ntest 1 1 Y/tB\nask 0\nask 1\nleaf 0\nleaf 2\nleaf 1\nend\n".as_slice()
    );
    Ok(())
}

#[test]
fn a_report_with_groups_in_order(rt: HostRuntime) -> Result<(), Fail> {
    let alloc = rt.alloc();
    let rows = vec![in alloc;
        Row {
            group: group(7),
            low: 20,
            up: 27
        },
        Row {
            group: group(6),
            low: 4,
            up: 4
        },
        Row {
            group: group(3),
            low: 18,
            up: 18
        },
    ]?;
    let bytes = text(alloc, Verdict::Bounded, 20, rows, Some(group(5)))?;
    assert_eq!(rt;
        bytes.as_slice(),
        b"teams report 1\nmode -\nstates 3\nclasses 3\ntests 2\nweight 10\nresult bounded\ncost 27\nlow 20\ngap 7\nlimit 4000\ngroups 3\nclass 0 6 1\nstate 6 good\nclass 1 3 1\nstate 3 A.f\nclass 2 1 1\nstate 1 B.f\ntest 0 2 X/tA\ntest 1 1 Y/tB\nask 0\nask 1\nleaf 0\nleaf 2\nleaf 1\ngroup 2 3 18\ngroup 2 6 4\ngroup 3 7 20\nmissed 2 5\nend\n".as_slice()
    );
    Ok(())
}

const WHOLE: &[u8] =
    b"teams report 1\nmode -\nstates 3\nclasses 3\ntests 2\nweight 10\nresult optimal\ncost 27\nlow 27\ngap 0\nlimit 4000\ngroups 1\nclass 0 6 1\nstate 6 good\nclass 1 3 1\nstate 3 A.f\nclass 2 1 1\nstate 1 B.f\ntest 0 2 X/tA\ntest 1 1 Y/tB\nask 0\nask 1\nleaf 0\nleaf 2\nleaf 1\ngroup 3 7 27\nend\n";

#[test]
fn a_report_is_read(rt: HostRuntime) -> Result<(), Fail> {
    let alloc = rt.alloc();
    let rows = vec![in alloc;
        Row {
            group: group(7),
            low: 27,
            up: 27
        },
    ]?;
    let bytes = text(alloc, Verdict::Optimal, 27, rows, None)?;
    assert_eq!(rt; bytes.as_slice(), WHOLE);
    match read_report(alloc, WHOLE) {
        Ok(report) => {
            assert_eq!(rt; report.mode.as_str(), "-");
            assert_eq!(rt; report.weight, 10);
            assert!(rt; report.verdict == Verdict::Optimal);
            assert_eq!(rt; report.cost, 27);
            assert_eq!(rt; report.class_lines.len(), 3);
            assert_eq!(rt; report.test_lines.len(), 2);
            assert_eq!(rt; report.tree.len(), 5);
            assert_eq!(rt; report.groups.len(), 1);
        }
        Err(_) => assert!(rt; false),
    }
    Ok(())
}

/// The first bad line of a text; 0 where it has the form.
fn bad_line(read: Result<Report, ReportFault>) -> u32 {
    match read {
        Ok(_) => 0,
        Err(ReportFault::Bad(BadLine { line, code })) => {
            if code == BadCode::C01 { line } else { 0 }
        }
        Err(ReportFault::OutOfMemory) => 0,
    }
}

#[test]
fn the_first_bad_line_is_named(rt: HostRuntime) -> Result<(), Fail> {
    let alloc = rt.alloc();
    for (text, line) in [
        (&WHOLE[..262], 27),
        (&WHOLE[..265], 27),
        (&WHOLE[..20], 2),
        (&WHOLE[1..], 1),
        (b"".as_slice(), 1),
        (b"teams report 1\nmode -\nstates 03\n".as_slice(), 3),
        (b"teams report 1\nmode -\nstates 4098\n".as_slice(), 3),
    ] {
        assert_eq!(rt; bad_line(read_report(alloc, text)), line);
    }
    Ok(())
}

/// A report of one class with so many states, of which the head is given, and of so many asks.
fn long_report(alloc: Global, head: &[u8], states: u32, asks: u32) -> Result<Vec<u8>, AllocError> {
    let mut text = Vec::from_slice(alloc, head)?;
    for _ in 0..states {
        text.extend_from_slice(b"state 1 a\n")?;
    }
    for _ in 0..asks {
        text.extend_from_slice(b"ask 0\n")?;
    }
    text.extend_from_slice(b"end\n")?;
    Ok(text)
}

#[test]
fn lines_past_the_limits_are_bad(rt: HostRuntime) -> Result<(), Fail> {
    let alloc = rt.alloc();
    let many =
        b"teams report 1\nmode -\nstates 1\nclasses 1\ntests 0\nweight 5\nresult optimal\ncost 0\nlow 0\ngap 0\nlimit 1\ngroups 0\nclass 0 5 18446744073709551615\n".as_slice();
    let one =
        b"teams report 1\nmode -\nstates 1\nclasses 1\ntests 0\nweight 5\nresult optimal\ncost 0\nlow 0\ngap 0\nlimit 1\ngroups 0\nclass 0 5 1\n".as_slice();
    for (head, states, asks, line) in [
        (many, 4098, 0, 4111),
        (many, 3, 0, 17),
        (one, 1, 511, 0),
        (one, 1, 512, 526),
    ] {
        let text = long_report(alloc, head, states, asks)?;
        if text.len() <= 16777216 {
            assert_eq!(rt; bad_line(read_report(alloc, text.as_slice())), line);
        } else {
            assert!(rt; false);
        }
    }
    Ok(())
}
