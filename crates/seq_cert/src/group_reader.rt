//! Reading the groups of a report: the entered ones, so many as its head says, and where the result is
//! bounded the missed one.
ghost use Rattle.std.specs.Prelude.{◌≡◌};
ghost use Rattle.sig_lines.specs.Pieces.{words_in};
ghost use Rattle.sig_lines.specs.Reading.{line_at};
ghost use Rattle.seq_cert.specs.LineForms.{group_in, missed_in};
ghost use Rattle.seq_cert.specs.Reading.{Gives, place, lines_at, read_missed};

use crate::due_line::{due_line, or_bad};
use crate::fault::ReportFault;
use crate::report::{GroupLine, MissedLine};
use seq_inst::{Group, Verdict};
use sig_lines::{LineReader, four_words, is_text, number_between, three_words, words_in_hex};
use sig_types::List;
use std::alloc::Global;

fn group_of(line: &[u8]) -> Option<GroupLine>
    ensures { result ≡ group_in (words_in line.now) }
{
    let (first, second, third, fourth) = four_words(line)?;
    if is_text(first, b"group") {
        let size = number_between(second, 0, u64::from(u32::MAX))?;
        let bits = words_in_hex(third)?;
        let low = number_between(fourth, 0, u64::MAX)?;
        Some(GroupLine {
            size: size as u32,
            group: Group(bits),
            low,
        })
    } else {
        None
    }
}

fn group_at(at: LineReader<'_>) -> Result<(GroupLine, LineReader<'_>), ReportFault>
    ensures { Gives (λ x. (x.0, place x.1)) result (line_at group_in (place at.entry)) }
{
    let (line, after) = due_line(at)?;
    Ok((or_bad(group_of(line), at)?, after))
}

/// So many group lines.
pub(crate) fn groups_of(
    alloc: Global,
    count: u32,
    start: LineReader<'_>,
) -> Result<(List<GroupLine>, LineReader<'_>), ReportFault>
    ensures { Gives (λ x. (x.0, place x.1)) result (lines_at (λ k. group_in) count 0 (place start.entry)) }
{
    let mut lines = List::new(alloc);
    let mut at = start;
    for _ in 0..count {
        let (line, after) = group_at(at)?;
        lines.push(line)?;
        at = after;
    }
    Ok((lines, at))
}

fn missed_of(line: &[u8]) -> Option<MissedLine>
    ensures { result ≡ missed_in (words_in line.now) }
{
    let (first, second, third) = three_words(line)?;
    if is_text(first, b"missed") {
        let size = number_between(second, 0, u64::from(u32::MAX))?;
        let bits = words_in_hex(third)?;
        Some(MissedLine {
            size: size as u32,
            group: Group(bits),
        })
    } else {
        None
    }
}

/// The missed line, where the result is bounded.
#[tactic(auto, unfolding(crate::specs::Reading::read_missed))]
pub(crate) fn missed_at(
    verdict: Verdict,
    at: LineReader<'_>,
) -> Result<(Option<MissedLine>, LineReader<'_>), ReportFault>
    ensures { Gives (λ x. (x.0, place x.1)) result (read_missed verdict (place at.entry)) }
{
    match verdict {
        Verdict::Optimal => Ok((None, at)),
        Verdict::Bounded => {
            let (line, after) = due_line(at)?;
            let missed = or_bad(missed_of(line), at)?;
            Ok((Some(missed), after))
        }
    }
}
