//! The tests of a report, in order.
ghost use Rattle.std.specs.Prelude.{◌≡◌, OnOk};
ghost use Rattle.sig_lines.specs.Pieces.{test_words};
ghost use Rattle.sig_lines.specs.Written.{with_line, with_lines};
ghost use Rattle.seq_cert.specs.Text.{test_lines};

use sig_lines::{Lines, TestLabel};
use std::alloc::AllocError;

fn write_test(out: &mut Lines, number: usize, test: &TestLabel) -> Result<(), AllocError>
    ensures { OnOk result (out.new ≡ with_line out.old (test_words number test.now)) }
{
    out.word("test")?;
    out.number(number as u64)?;
    out.number(u64::from(test.cost))?;
    out.word(test.label.as_str())?;
    out.end_line()
}

/// Writes all tests.
pub(crate) fn write_tests(out: &mut Lines, tests: &[TestLabel]) -> Result<(), AllocError>
    ensures { OnOk result (out.new ≡ with_lines out.old (test_lines 0 tests.now)) }
{
    for number in 0..tests.len() {
        write_test(out, number, &tests[number])?;
    }
    Ok(())
}
