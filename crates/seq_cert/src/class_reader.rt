//! Reading the classes of a report, each with its states. A count may be any number: no room is taken by
//! it, since a class's states are pushed line by line, and past 4,097 of them in all the next is bad.
ghost use Rattle.std.specs.Prelude.{◌≡◌, IfSome};
ghost use Rattle.std.specs.Str.{IsAscii};
ghost use Rattle.sig_lines.specs.Pieces.{SeenAs, words_in};
ghost use Rattle.sig_lines.specs.Reading.{line_at};
ghost use Rattle.seq_cert.specs.LineForms.{class_in, state_in};
ghost use Rattle.seq_cert.specs.Reading.{Gives, place, states_at, class_at, classes_at};

use crate::due_line::{due_line, or_bad};
use crate::fault::{ReportFault, bad_line};
use crate::report::{ClassLine, StateLine};
use crate::words::{is_label, is_number};
use sig_lines::{LineReader, ascii_text, four_words, is_text, number_between, three_words};
use sig_types::List;
use std::alloc::Global;

/// The most state lines that a report has.
const MOST_STATES: usize = 4097;

#[tactic(auto, using(crate::proofs::AllBytes::ascii_label))]
fn state_of(line: &[u8]) -> Option<(u64, &[u8])>
    ensures same { SeenAs (λ x. record { weight = x.0; label = x.1.now }) result (state_in (words_in line.now)) }
    ensures ascii { IfSome result (λ x. IsAscii x.1.now) }
{
    let (first, second, third) = three_words(line)?;
    if is_text(first, b"state") && is_label(third) {
        let weight = number_between(second, 0, u64::MAX)?;
        Some((weight, third))
    } else {
        None
    }
}

fn state_at(alloc: Global, at: LineReader<'_>) -> Result<(StateLine, LineReader<'_>), ReportFault>
    ensures { Gives (λ x. (x.0, place x.1)) result (line_at state_in (place at.entry)) }
{
    let (line, after) = due_line(at)?;
    let (weight, label) = or_bad(state_of(line), at)?;
    Ok((
        StateLine {
            weight,
            label: ascii_text(alloc, label)?,
        },
        after,
    ))
}

/// The weight of a class and the count of its states.
fn class_of(k: u32, line: &[u8]) -> Option<(u64, u64)>
    ensures { result ≡ class_in k (words_in line.now) }
{
    let (first, second, third, fourth) = four_words(line)?;
    if is_text(first, b"class") && is_number(second, k) {
        let weight = number_between(third, 0, u64::MAX)?;
        let count = number_between(fourth, 1, u64::MAX)?;
        Some((weight, count))
    } else {
        None
    }
}

fn class_at(k: u32, at: LineReader<'_>) -> Result<((u64, u64), LineReader<'_>), ReportFault>
    ensures { Gives (λ x. (x.0, place x.1)) result (line_at (class_in k) (place at.entry)) }
{
    let (line, after) = due_line(at)?;
    Ok((or_bad(class_of(k, line), at)?, after))
}

/// So many state lines, but no more than there is room for.
fn states_of(
    alloc: Global,
    room: usize,
    count: u64,
    start: LineReader<'_>,
) -> Result<(List<StateLine>, LineReader<'_>), ReportFault>
    ensures { Gives (λ x. (x.0, place x.1)) result (states_at room count (place start.entry)) }
{
    let mut lines = List::new(alloc);
    let mut at = start;
    let mut room = room;
    let mut left = count;
    while left > 0 {
        if room == 0 {
            return Err(bad_line(at));
        }
        let (line, after) = state_at(alloc, at)?;
        lines.push(line)?;
        at = after;
        room -= 1;
        left -= 1;
    }
    Ok((lines, at))
}

/// A class line with its state lines.
#[tactic(auto, unfolding(crate::specs::Reading::class_at))]
fn class_with_states(
    alloc: Global,
    room: usize,
    k: u32,
    at: LineReader<'_>,
) -> Result<(ClassLine, LineReader<'_>), ReportFault>
    ensures { Gives (λ x. (x.0, place x.1)) result (class_at room k (place at.entry)) }
{
    let ((weight, count), at) = class_at(k, at)?;
    let (states, at) = states_of(alloc, room, count, at)?;
    Ok((ClassLine { weight, states }, at))
}

/// So many classes with their states.
pub(crate) fn classes_of(
    alloc: Global,
    count: u32,
    start: LineReader<'_>,
) -> Result<(List<ClassLine>, LineReader<'_>), ReportFault>
    ensures { Gives (λ x. (x.0, place x.1)) result (classes_at 4097 count 0 (place start.entry)) }
{
    let mut lines = List::new(alloc);
    let mut at = start;
    let mut room = MOST_STATES;
    for k in 0..count {
        let (line, after) = class_with_states(alloc, room, k, at)?;
        room = room.saturating_sub(line.states.len());
        lines.push(line)?;
        at = after;
    }
    Ok((lines, at))
}
