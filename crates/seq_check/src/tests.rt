//! The report of two faults, each seen by a test of its own, as it is and with one line altered.
ghost use Rattle.std.specs.Prelude.{◌≡◌, ◌≤◌, [], ◌∷◌, codes, length, IfOk};

use crate::check;
use seq_cert::{BadCode, BadLine, ReportFault, read_report};
use seq_inst::{Group, Instance, Verdict, checked_holds};
use sig_lines::{Labels, StateLabel, TestLabel};
use sig_types::{List, Text};
use std::alloc::{AllocError, Global};
use std::test::Fail;

/// Weights 6, 3, 1; test 0 costs 2 and fails for class 1, test 1 costs 1 and fails for class 2.
fn two_faults(alloc: Global) -> Result<Instance, AllocError>
    ensures weights { IfOk result (λ i. i.weights.items ≡ 6 ∷ 3 ∷ 1 ∷ []) }
    ensures costs { IfOk result (λ i. i.costs.items ≡ 2 ∷ 1 ∷ []) }
{
    let weights = vec![in alloc; 6, 3, 1]?;
    let costs = vec![in alloc; 2, 1]?;
    let passes = vec![in alloc;
        Group([5, 0, 0, 0, 0, 0, 0, 0]),
        Group([3, 0, 0, 0, 0, 0, 0, 0]),
    ]?;
    checked_holds();
    Ok(Instance::new(weights, costs, passes))
}

fn state(alloc: Global, weight: u32, label: &str, class: u32) -> Result<StateLabel, AllocError>
    ensures { IfOk result (λ s. s ≡ record { weight = weight; label = label.now; class = class }) }
{
    let label = Text::of(alloc, label)?;
    Ok(StateLabel {
        weight,
        label,
        class,
    })
}

fn test(alloc: Global, cost: u32, label: &str) -> Result<TestLabel, AllocError>
    ensures { IfOk result (λ t. t ≡ record { cost = cost; label = label.now }) }
{
    let label = Text::of(alloc, label)?;
    Ok(TestLabel { cost, label })
}

fn states(alloc: Global) -> Result<List<StateLabel>, AllocError>
    ensures { IfOk result (λ l. l ≡ record { weight = 6; label = codes "good"; class = 0 } ∷ record { weight = 3; label = codes "A.f"; class = 1 } ∷ record { weight = 1; label = codes "B.f"; class = 2 } ∷ []) }
{
    let mut states = List::new(alloc);
    states.push(state(alloc, 6, "good", 0)?)?;
    states.push(state(alloc, 3, "A.f", 1)?)?;
    states.push(state(alloc, 1, "B.f", 2)?)?;
    Ok(states)
}

fn tests(alloc: Global) -> Result<List<TestLabel>, AllocError>
    ensures { IfOk result (λ l. l ≡ record { cost = 2; label = codes "X/tA" } ∷ record { cost = 1; label = codes "Y/tB" } ∷ []) }
{
    let mut tests = List::new(alloc);
    tests.push(test(alloc, 2, "X/tA")?)?;
    tests.push(test(alloc, 1, "Y/tB")?)?;
    Ok(tests)
}

/// What the checker says of a text.
fn judged(alloc: Global, text: &[u8]) -> Result<Verdict, ReportFault>
    requires { length text.now ≤ 16777216 }
{
    let inst = two_faults(alloc)?;
    let mode = Text::of(alloc, "-")?;
    let states = states(alloc)?;
    let tests = tests(alloc)?;
    let labels = Labels {
        mode,
        states,
        tests,
    };
    let report = read_report(alloc, text)?;
    check(alloc, &inst, &labels, &report)
}

const HEAD: &[u8] =
    b"teams report 1\nmode -\nstates 3\nclasses 3\ntests 2\nweight 10\nresult optimal\n";

const COSTS: &[u8] = b"cost 27\nlow 27\ngap 0\nlimit 4000\ngroups 1\n";

const STATES: &[u8] =
    b"class 0 6 1\nstate 6 good\nclass 1 3 1\nstate 3 A.f\nclass 2 1 1\nstate 1 B.f\ntest 0 2 X/tA\ntest 1 1 Y/tB\n";

const TREE: &[u8] = b"ask 0\nask 1\nleaf 0\nleaf 2\nleaf 1\n";

const GROUPS: &[u8] = b"group 3 7 27\nend\n";

fn text(alloc: Global, parts: [&[u8]; 5]) -> Result<Vec<u8>, AllocError> {
    let mut text = Vec::new(alloc);
    for part in parts {
        text.extend_from_slice(part)?;
    }
    Ok(text)
}

/// The first bad line with its code, or None for an optimal report.
fn first_bad(alloc: Global, parts: [&[u8]; 5]) -> Result<Option<BadLine>, Fail> {
    let text = text(alloc, parts)?;
    if text.len() > 16777216 {
        return Err(Fail::from(AllocError));
    }
    match judged(alloc, text.as_slice()) {
        Ok(_) => Ok(None),
        Err(ReportFault::Bad(bad)) => Ok(Some(bad)),
        Err(ReportFault::OutOfMemory) => Err(Fail::from(AllocError)),
    }
}

#[test]
fn an_optimal_report_is_accepted(rt: HostRuntime) -> Result<(), Fail> {
    let bad = first_bad(rt.alloc(), [HEAD, COSTS, STATES, TREE, GROUPS])?;
    assert!(rt; bad.is_none());
    Ok(())
}

#[test]
fn an_altered_line_is_named(rt: HostRuntime) -> Result<(), Fail> {
    let alloc = rt.alloc();
    for (parts, line, code) in [
        (
            [
                b"teams report 1\nmode m\nstates 3\nclasses 3\ntests 2\nweight 10\nresult optimal\n".as_slice(),
                COSTS,
                STATES,
                TREE,
                GROUPS,
            ],
            2,
            BadCode::C02,
        ),
        (
            [
                HEAD,
                b"cost 28\nlow 27\ngap 1\nlimit 4000\ngroups 1\n".as_slice(),
                STATES,
                TREE,
                GROUPS,
            ],
            8,
            BadCode::C04,
        ),
        (
            [
                HEAD,
                b"cost 27\nlow 28\ngap 0\nlimit 4000\ngroups 1\n".as_slice(),
                STATES,
                TREE,
                GROUPS,
            ],
            9,
            BadCode::C05,
        ),
        (
            [
                HEAD,
                b"cost 27\nlow 26\ngap 1\nlimit 4000\ngroups 1\n".as_slice(),
                STATES,
                TREE,
                GROUPS,
            ],
            10,
            BadCode::C05,
        ),
        (
            [
                HEAD,
                COSTS,
                STATES,
                b"ask 0\nask 1\nleaf 0\nleaf 1\nleaf 2\n".as_slice(),
                GROUPS,
            ],
            24,
            BadCode::C03,
        ),
        (
            [
                HEAD,
                COSTS,
                STATES,
                b"ask 0\nask 1\nleaf 0\nleaf 2\n".as_slice(),
                GROUPS,
            ],
            25,
            BadCode::C03,
        ),
        (
            [HEAD, COSTS, STATES, TREE, b"group 2 7 27\nend\n".as_slice()],
            26,
            BadCode::C06,
        ),
        (
            [HEAD, COSTS, STATES, TREE, b"group 4 f 27\nend\n".as_slice()],
            26,
            BadCode::C06,
        ),
        (
            [
                HEAD,
                COSTS,
                STATES,
                TREE,
                b"group 3 7 18446744073709551615\nend\n".as_slice(),
            ],
            26,
            BadCode::C07,
        ),
        (
            [HEAD, COSTS, STATES, TREE, b"group 3 7 26\nend\n".as_slice()],
            26,
            BadCode::C08,
        ),
        // The bound of classes 0 and 2 is 7. Claimed to be 0, it counts 0, and all classes then 20 by test 0.
        (
            [
                HEAD,
                b"cost 27\nlow 27\ngap 0\nlimit 4000\ngroups 2\n".as_slice(),
                STATES,
                TREE,
                b"group 2 5 0\ngroup 3 7 27\nend\n".as_slice(),
            ],
            27,
            BadCode::C07,
        ),
    ] {
        let bad = first_bad(alloc, parts)?;
        assert!(rt; bad == Some(BadLine { line, code }));
    }
    Ok(())
}
