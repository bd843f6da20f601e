//! The entered groups of a report, by size and at one size by the group as a number. A stable sort puts
//! them in order, so nothing is asked of the rows.
ghost use Rattle.std.specs.Prelude.{◌≡◌, length, map, OnOk, IfOk, IfSome, All};
ghost use Rattle.std.specs.Option.{option_map};
ghost use Rattle.std.specs.Ordering.{is_lt, nat_cmp};
ghost use Rattle.sig_lines.specs.Hex.{number_of_words};
ghost use Rattle.sig_lines.specs.Written.{with_line, with_lines};
ghost use Rattle.seq_cert.specs.Text.{group_words, missed_words, missed_lines};
ghost use Rattle.seq_cert.specs.Order.{is_before, in_order};
ghost use Rattle.seq_cert.specs.OutcomeReport.{row_line, missed_line};
ghost use Rattle.seq_cert.specs.ReportForm.{IsGroup, IsGroupLine, IsMissedLine};

use crate::report::GroupLine;
use seq_inst::{Group, Row, count_of, group_stands};
use sig_lines::{Lines, lines_hold};
use std::alloc::{AllocError, Global};
use std::cmp::Ordering;

/// Which of two numbers of words is less, found from the highest word down.
fn compare_numbers(a: &[u64], b: &[u64]) -> Ordering
    requires { length a.now ≡ length b.now }
    ensures { result ≡ nat_cmp (number_of_words a.now) (number_of_words b.now) }
{
    for passed in 0..a.len() {
        let at = a.len() - 1 - passed;
        if a[at] != b[at] {
            return a[at].cmp(&b[at]);
        }
    }
    Ordering::Equal
}

/// Which of two group lines comes first.
fn compare_lines(a: &GroupLine, b: &GroupLine) -> Ordering
    ensures { is_lt result ≡ is_before a.now b.now }
{
    if a.size == b.size {
        compare_numbers(&a.group.0, &b.group.0)
    } else {
        a.size.cmp(&b.size)
    }
}

/// Whether the first line comes before the second: by size, and at one size by the group as a number.
pub fn comes_before(a: &GroupLine, b: &GroupLine) -> bool
    ensures { result ≡ is_before a.now b.now }
{
    compare_lines(a, b).is_lt()
}

/// That a group's words are those of its number, for proofs alone.
fn know_group(group: &Group)
    ensures { IsGroup group.now }
{
    lines_hold();
    group_stands(group);
}

/// The line of a row.
fn line_of(row: &Row) -> GroupLine
    ensures is { result ≡ row_line row.now }
    ensures fits { IsGroupLine result }
{
    know_group(&row.group);
    let _low = row.low;
    GroupLine {
        size: count_of(&row.group),
        group: row.group,
        low: row.low,
    }
}

/// The lines of the rows, in order.
fn lines_in_order(alloc: Global, rows: &[Row]) -> Result<Vec<GroupLine>, AllocError>
    ensures order { IfOk result (λ lines. lines.items ≡ in_order (map row_line rows.now)) }
    ensures fits { OnOk result (All IsGroupLine (in_order (map row_line rows.now))) }
{
    let mut lines = Vec::with_capacity(alloc, rows.len())?;
    for row in rows {
        lines.push(line_of(row))?;
    }
    lines.sort_by(|a, b| compare_lines(a, b))?;
    Ok(lines)
}

fn write_group(out: &mut Lines, line: &GroupLine) -> Result<(), AllocError>
    ensures { OnOk result (out.new ≡ with_line out.old (group_words line.now)) }
{
    out.word("group")?;
    out.number(u64::from(line.size))?;
    out.hex(&line.group.0)?;
    out.number(line.low)?;
    out.end_line()
}

fn write_lines(out: &mut Lines, lines: &[GroupLine]) -> Result<(), AllocError>
    ensures { OnOk result (out.new ≡ with_lines out.old (map group_words lines.now)) }
{
    for at in 0..lines.len() {
        write_group(out, &lines[at])?;
    }
    Ok(())
}

/// Writes the lines of the rows, in order.
pub(crate) fn write_groups(alloc: Global, out: &mut Lines, rows: &[Row]) -> Result<(), AllocError>
    ensures written { OnOk result (out.new ≡ with_lines out.old (map group_words (in_order (map row_line rows.now)))) }
    ensures fits { OnOk result (All IsGroupLine (in_order (map row_line rows.now))) }
{
    let lines = lines_in_order(alloc, rows)?;
    write_lines(out, lines.as_slice())
}

/// Writes the line of the group that was missed, where there is one.
pub(crate) fn write_missed(out: &mut Lines, missed: Option<Group>) -> Result<(), AllocError>
    ensures written { OnOk result (out.new ≡ with_lines out.old (missed_lines (option_map missed_line missed))) }
    ensures fits { IfSome (option_map missed_line missed) IsMissedLine }
{
    match missed {
        None => Ok(()),
        Some(group) => {
            know_group(&group);
            out.word("missed")?;
            out.number(u64::from(count_of(&group)))?;
            out.hex(&group.0)?;
            out.end_line()
        }
    }
}
