//! Logs of a receiver of three stages, each with a fault and a test point behind it: the faults of a stage are seen at its point and at each
//! later one.

ghost use Rattle.std.specs.Prelude.{◌≡◌, length, IfOk};

use crate::{
    BadLogLine, Finding, Label, LogCode, LogFault, ReasonFault, label_of, read_log, reason_text,
};
use sig_lines::TestLabel;
use sig_matrix::{FaultRow, Matrix};
use sig_types::{List, Text};
use std::alloc::{AllocError, Global};
use std::test::Fail;

fn fault(alloc: Global, label: &str, tests: u64) -> Result<FaultRow, AllocError> {
    Ok(FaultRow {
        weight: 1,
        label: Text::of(alloc, label)?,
        row: [tests, 0, 0, 0],
    })
}

fn test(alloc: Global, label: &str) -> Result<TestLabel, AllocError> {
    Ok(TestLabel {
        cost: 1,
        label: Text::of(alloc, label)?,
    })
}

fn receiver(alloc: Global) -> Result<Matrix, AllocError>
    ensures tests { IfOk result (λ matrix. length matrix.tests ≡ 3) }
    ensures faults { IfOk result (λ matrix. length matrix.faults ≡ 3) }
{
    let mut faults = List::new(alloc);
    faults.push(fault(alloc, "s1/amp.f", 7)?)?;
    faults.push(fault(alloc, "s2/amp.f", 6)?)?;
    faults.push(fault(alloc, "s3/amp.f", 4)?)?;
    let mut tests = List::new(alloc);
    tests.push(test(alloc, "s1/tp/v")?)?;
    tests.push(test(alloc, "s2/tp/v")?)?;
    tests.push(test(alloc, "s3/tp/v")?)?;
    Ok(Matrix {
        good: 1,
        faults,
        tests,
    })
}

#[test]
fn faults_are_called_by_all_sets(rt: HostRuntime) -> Result<(), Fail> {
    let matrix = receiver(rt.alloc())?;
    let logs = [
        (
            b"pass s1/tp/v\nfail s3/tp/v\n".as_slice(),
            [Label::Good, Label::Suspect, Label::Suspect],
        ),
        (
            b"pass s1/tp/v\nfail s3/tp/v\nfail s2/tp/v\n".as_slice(),
            [Label::Good, Label::Bad, Label::Unknown],
        ),
        (
            b"".as_slice(),
            [Label::Unknown, Label::Unknown, Label::Unknown],
        ),
    ];
    for (log, labels) in logs {
        assert!(rt; log.len() <= 1048576);
        let found = read_log(rt.alloc(), &matrix, log)?;
        let labelled = label_of(rt.alloc(), &matrix, found.as_slice())?;
        assert_eq!(rt; labelled.labels.as_slice(), labels.as_slice());
    }
    Ok(())
}

#[test]
fn a_test_that_no_fault_explains_is_named(rt: HostRuntime) -> Result<(), Fail> {
    let matrix = receiver(rt.alloc())?;
    let found = read_log(
        rt.alloc(),
        &matrix,
        b"fail s2/tp/v
pass s3/tp/v
fail s1/tp/v
",
    )?;
    let fault = label_of(rt.alloc(), &matrix, found.as_slice()).err();
    assert_eq!(rt; fault, Some(ReasonFault::Conflict { test: 0 }));
    Ok(())
}

#[test]
fn the_first_bad_line_is_named(rt: HostRuntime) -> Result<(), Fail> {
    let matrix = receiver(rt.alloc())?;
    let logs = [
        (b"pass s1/tp/v".as_slice(), 1, LogCode::L01),
        (
            b"fail s1/tp/v
pass  s2/tp/v
"
                .as_slice(),
            2,
            LogCode::L01,
        ),
        (
            b"fail s4/tp/v
passes s2/tp/v
"
                .as_slice(),
            1,
            LogCode::L02,
        ),
        (
            b"fail s1/tp/v
fail s3/tp/v
pass s1/tp/v
"
                .as_slice(),
            3,
            LogCode::L03,
        ),
    ];
    for (log, line, code) in logs {
        assert!(rt; log.len() <= 1048576);
        let fault = read_log(rt.alloc(), &matrix, log).err();
        assert_eq!(rt; fault, Some(LogFault::BadLine(BadLogLine { line, code })));
    }
    Ok(())
}

#[test]
fn the_text_has_a_line_for_each_fault(rt: HostRuntime) -> Result<(), Fail> {
    let matrix = receiver(rt.alloc())?;
    let found = [Finding {
        test: 1,
        failed: true,
    }];
    let labelled = label_of(rt.alloc(), &matrix, &found)?;
    let text = reason_text(rt.alloc(), &matrix, labelled.labels.as_slice(), "-")?;
    assert_eq!(rt;
        text.as_slice(),
        b"teams reason 1\nmode -\nfaults 3\nsuspect s1/amp.f\nsuspect s2/amp.f\nunknown s3/amp.f\nend\n".as_slice()
    );
    Ok(())
}
