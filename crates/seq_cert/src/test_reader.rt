//! Reading the tests of a report, in order.
ghost use Rattle.std.specs.Prelude.{IfSome};
ghost use Rattle.std.specs.Str.{IsAscii};
ghost use Rattle.sig_lines.specs.Pieces.{SeenAs, words_in};
ghost use Rattle.sig_lines.specs.Reading.{line_at};
ghost use Rattle.seq_cert.specs.LineForms.{test_in};
ghost use Rattle.seq_cert.specs.Reading.{Gives, place, lines_at};

use crate::due_line::{due_line, or_bad};
use crate::fault::ReportFault;
use crate::words::{is_label, is_number};
use sig_lines::{LineReader, TestLabel, ascii_text, four_words, is_text, number_between};
use sig_types::List;
use std::alloc::Global;

#[tactic(auto, using(crate::proofs::AllBytes::ascii_label))]
fn test_of(k: u32, line: &[u8]) -> Option<(u32, &[u8])>
    ensures same { SeenAs (λ x. record { cost = x.0; label = x.1.now }) result (test_in k (words_in line.now)) }
    ensures ascii { IfSome result (λ x. IsAscii x.1.now) }
{
    let (first, second, third, fourth) = four_words(line)?;
    if is_text(first, b"test") && (is_number(second, k) && is_label(fourth)) {
        let cost = number_between(third, 0, u64::from(u32::MAX))?;
        Some((cost as u32, fourth))
    } else {
        None
    }
}

fn test_at(
    alloc: Global,
    k: u32,
    at: LineReader<'_>,
) -> Result<(TestLabel, LineReader<'_>), ReportFault>
    ensures { Gives (λ x. (x.0, place x.1)) result (line_at (test_in k) (place at.entry)) }
{
    let (line, after) = due_line(at)?;
    let (cost, label) = or_bad(test_of(k, line), at)?;
    Ok((
        TestLabel {
            cost,
            label: ascii_text(alloc, label)?,
        },
        after,
    ))
}

/// So many test lines.
pub(crate) fn tests_of(
    alloc: Global,
    count: u32,
    start: LineReader<'_>,
) -> Result<(List<TestLabel>, LineReader<'_>), ReportFault>
    ensures { Gives (λ x. (x.0, place x.1)) result (lines_at test_in count 0 (place start.entry)) }
{
    let mut lines = List::new(alloc);
    let mut at = start;
    for k in 0..count {
        let (line, after) = test_at(alloc, k, at)?;
        lines.push(line)?;
        at = after;
    }
    Ok((lines, at))
}
