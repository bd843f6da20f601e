//! Reading a report: Ok exactly for bytes that have its form, with the one report whose text they are;
//! else the first line that is not of the form that its place asks. The bytes are read once from front to
//! back, line by line, so the work is linear in them, and no room is taken by a number that was read.
ghost use Rattle.std.specs.Prelude.{◌≡◌, ◌≤◌, length, IfOk, IfErr, Ok};
ghost use Rattle.sig_lines.specs.Pieces.{words_in, lines_in, tail_in};
ghost use Rattle.sig_lines.specs.Reading.{line_at};
ghost use Rattle.seq_cert.specs.LineForms.{end_in};
ghost use Rattle.seq_cert.specs.Places.{TellsFirstBad};
ghost use Rattle.seq_cert.specs.Reading.{Gives, place, is_nothing, body_at, whole_at, report_at};
ghost use Rattle.seq_cert.specs.ReportForm.{IsReport};
ghost use Rattle.seq_cert.specs.Text.{report_lines, report_bytes};

use crate::class_reader::classes_of;
use crate::due_line::{due_line, or_bad};
use crate::fault::{ReportFault, bad_line};
use crate::group_reader::{groups_of, missed_at};
use crate::head_reader::{Head, head_of};
use crate::report::{ClassLine, GroupLine, MissedLine, Report, TreeLine};
use crate::test_reader::tests_of;
use crate::tree_reader::tree_of;
use sig_lines::{LineReader, TestLabel, is_text, lines_hold, one_word};
use sig_types::List;
use std::alloc::Global;

/// What follows the first twelve lines.
#[derive(Debug, Drop)]
pub(crate) struct Body {
    pub classes: List<ClassLine>,
    pub tests: List<TestLabel>,
    pub tree: List<TreeLine>,
    pub groups: List<GroupLine>,
    pub missed: Option<MissedLine>,
}

fn is_end(line: &[u8]) -> Option<()>
    ensures { result ≡ end_in (words_in line.now) }
{
    let word = one_word(line)?;
    if is_text(word, b"end") {
        Some(())
    } else {
        None
    }
}

fn end_at(at: LineReader<'_>) -> Result<((), LineReader<'_>), ReportFault>
    ensures { Gives (λ x. (x.0, place x.1)) result (line_at end_in (place at.entry)) }
{
    let (line, after) = due_line(at)?;
    or_bad(is_end(line), at)?;
    Ok(((), after))
}

/// What follows the first lines, with the end.
#[tactic(auto, unfolding(crate::specs::Reading::body_at))]
fn body_of<'a>(
    alloc: Global,
    head: &Head,
    at: LineReader<'a>,
) -> Result<(Body, LineReader<'a>), ReportFault>
    ensures { Gives (λ x. ((x.0.classes, (x.0.tests, (x.0.tree, (x.0.groups, (x.0.missed, tt))))), place x.1)) result (body_at head.now (place at.entry)) }
{
    let (classes, at) = classes_of(alloc, head.classes, at)?;
    let (tests, at) = tests_of(alloc, head.tests, at)?;
    let (tree, at) = tree_of(alloc, at)?;
    let (groups, at) = groups_of(alloc, head.groups, at)?;
    let (missed, at) = missed_at(head.verdict, at)?;
    let (_, at) = end_at(at)?;
    Ok((
        Body {
            classes,
            tests,
            tree,
            groups,
            missed,
        },
        at,
    ))
}

/// A report up to its last line.
#[tactic(auto, unfolding(crate::specs::Reading::whole_at))]
fn whole_of<'a>(alloc: Global, at: LineReader<'a>) -> Result<(Report, LineReader<'a>), ReportFault>
    ensures { Gives (λ x. (x.0, place x.1)) result (whole_at (place at.entry)) }
{
    let (head, at) = head_of(alloc, at)?;
    let (body, at) = body_of(alloc, &head, at)?;
    let report = Report {
        mode: head.mode,
        states: head.states,
        classes: head.classes,
        tests: head.tests,
        weight: head.weight,
        verdict: head.verdict,
        cost: head.cost,
        low: head.low,
        gap: head.gap,
        limit: head.limit,
        class_lines: body.classes,
        test_lines: body.tests,
        tree: body.tree,
        groups: body.groups,
        missed: body.missed,
    };
    Ok((report, at))
}

/// Whether nothing is left to read.
fn is_at_end(at: LineReader<'_>) -> bool
    ensures { result ≡ is_nothing (lines_in at.entry.rest.now) (tail_in at.entry.rest.now) }
{
    lines_hold();
    at.rest.len() == 0
}

#[tactic(auto, unfolding(crate::specs::Reading::report_at))]
fn all_of(alloc: Global, bytes: &[u8]) -> Result<Report, ReportFault>
    requires { length bytes.now ≤ 16777216 }
    ensures { Gives (λ x. x) result (report_at bytes.now) }
{
    let at = LineReader {
        rest: bytes,
        number: 1,
    };
    let (report, at) = whole_of(alloc, at)?;
    if is_at_end(at) {
        Ok(report)
    } else {
        Err(bad_line(at))
    }
}

/// The report whose text the bytes are. A fault names the first bad line, with C01; a line that should be
/// there and is not is named by the number that it would have.
pub fn read_report(alloc: Global, bytes: &[u8]) -> Result<Report, ReportFault>
    requires { length bytes.now ≤ 16777216 }
    // What is read is a report, and the bytes are its text.
    ensures found { IfOk result (λ r. IsReport r × (bytes.now ≡ report_bytes r)) }
    ensures short { IfOk result (λ r. length (report_lines r) ≤ length bytes.now) }
    // The text of a report is read, unless memory runs out.
    ensures only { (r : Report) → IsReport r → bytes.now ≡ report_bytes r → Gives (λ x. x) result (Ok r) }
    // What is refused has a first bad line, which is named.
    ensures bad { IfErr result (TellsFirstBad bytes.now) }
{
    lines_hold();
    all_of(alloc, bytes)
}
