//! Reading the head of a report: its title and mode, how much there is of each kind of line, and what the
//! search found. A line is taken apart into its words first, and then asked for its form; the readers of
//! all parts have this shape, so that each states its answer by the definition's reading of its lines.
ghost use Rattle.std.specs.Prelude.{◌≡◌, ◌≤◌, codes, IfOk, IfSome};
ghost use Rattle.std.specs.Str.{IsAscii};
ghost use Rattle.sig_lines.specs.Pieces.{SeenAs, words_in};
ghost use Rattle.sig_lines.specs.Reading.{line_at};
ghost use Rattle.seq_cert.specs.LineForms.{numbered, title_in, mode_in, result_in};
ghost use Rattle.seq_cert.specs.Reading.{Gives, place, head_at};

use crate::due_line::{due_line, or_bad};
use crate::fault::ReportFault;
use crate::words::is_mode;
use seq_inst::Verdict;
use sig_lines::{LineReader, ascii_text, is_text, number_between, three_words, two_words};
use sig_types::Text;
use std::alloc::Global;

/// The first twelve lines.
#[derive(Debug, Drop)]
pub(crate) struct Head {
    pub mode: Text,
    pub states: u32,
    pub classes: u32,
    pub tests: u32,
    pub weight: u64,
    pub verdict: Verdict,
    pub cost: u64,
    pub low: u64,
    pub gap: u64,
    pub limit: u32,
    pub groups: u32,
}

fn is_title(line: &[u8]) -> Option<()>
    ensures { result ≡ title_in (words_in line.now) }
{
    let (first, second, third) = three_words(line)?;
    if is_text(first, b"teams") && (is_text(second, b"report") && is_text(third, b"1")) {
        Some(())
    } else {
        None
    }
}

fn title_at(at: LineReader<'_>) -> Result<((), LineReader<'_>), ReportFault>
    ensures { Gives (λ x. (x.0, place x.1)) result (line_at title_in (place at.entry)) }
{
    let (line, after) = due_line(at)?;
    or_bad(is_title(line), at)?;
    Ok(((), after))
}

#[tactic(auto, using(crate::proofs::AllBytes::ascii_mode))]
fn mode_of(line: &[u8]) -> Option<&[u8]>
    ensures same { SeenAs (λ x. x.now) result (mode_in (words_in line.now)) }
    ensures ascii { IfSome result (λ x. IsAscii x.now) }
{
    let (first, second) = two_words(line)?;
    if is_text(first, b"mode") && is_mode(second) {
        Some(second)
    } else {
        None
    }
}

fn mode_at(alloc: Global, at: LineReader<'_>) -> Result<(Text, LineReader<'_>), ReportFault>
    ensures { Gives (λ x. (x.0, place x.1)) result (line_at mode_in (place at.entry)) }
{
    let (line, after) = due_line(at)?;
    let mode = or_bad(mode_of(line), at)?;
    Ok((ascii_text(alloc, mode)?, after))
}

fn verdict_of(line: &[u8]) -> Option<Verdict>
    ensures { result ≡ result_in (words_in line.now) }
{
    let (first, second) = two_words(line)?;
    if !is_text(first, b"result") {
        None
    } else if is_text(second, b"optimal") {
        Some(Verdict::Optimal)
    } else if is_text(second, b"bounded") {
        Some(Verdict::Bounded)
    } else {
        None
    }
}

fn verdict_at(at: LineReader<'_>) -> Result<(Verdict, LineReader<'_>), ReportFault>
    ensures { Gives (λ x. (x.0, place x.1)) result (line_at result_in (place at.entry)) }
{
    let (line, after) = due_line(at)?;
    Ok((or_bad(verdict_of(line), at)?, after))
}

/// The number of a line of a key and a number in the range.
fn number_after(line: &[u8], key: &[u8], least: u64, most: u64) -> Option<u64>
    ensures same { result ≡ numbered key.now least most (words_in line.now) }
    ensures range { IfSome result (λ n. (least ≤ n) × (n ≤ most)) }
{
    match two_words(line) {
        Some((first, second)) => {
            if is_text(first, key) {
                number_between(second, least, most)
            } else {
                None
            }
        }
        None => None,
    }
}

fn number_at<'a>(
    at: LineReader<'a>,
    key: &[u8],
    least: u64,
    most: u64,
) -> Result<(u64, LineReader<'a>), ReportFault>
    ensures same { Gives (λ x. (x.0, place x.1)) result (line_at (numbered key.now least most) (place at.entry)) }
    ensures range { IfOk result (λ x. (least ≤ x.0) × (x.0 ≤ most)) }
{
    let (line, after) = due_line(at)?;
    Ok((or_bad(number_after(line, key, least, most), at)?, after))
}

/// The first twelve lines.
#[tactic(auto, unfolding(crate::specs::Reading::head_at))]
pub(crate) fn head_of(
    alloc: Global,
    at: LineReader<'_>,
) -> Result<(Head, LineReader<'_>), ReportFault>
    ensures { Gives (λ x. (x.0, place x.1)) result (head_at (place at.entry)) }
{
    let (_, at) = title_at(at)?;
    let (mode, at) = mode_at(alloc, at)?;
    let (states, at) = number_at(at, b"states", 1, 4097)?;
    let (classes, at) = number_at(at, b"classes", 1, 512)?;
    let (tests, at) = number_at(at, b"tests", 0, 256)?;
    let (weight, at) = number_at(at, b"weight", 0, u64::MAX)?;
    let (verdict, at) = verdict_at(at)?;
    let (cost, at) = number_at(at, b"cost", 0, u64::MAX)?;
    let (low, at) = number_at(at, b"low", 0, u64::MAX)?;
    let (gap, at) = number_at(at, b"gap", 0, u64::MAX)?;
    let (limit, at) = number_at(at, b"limit", 1, 32768)?;
    let (groups, at) = number_at(at, b"groups", 0, 32768)?;
    Ok((
        Head {
            mode,
            states: states as u32,
            classes: classes as u32,
            tests: tests as u32,
            weight,
            verdict,
            cost,
            low,
            gap,
            limit: limit as u32,
            groups: groups as u32,
        },
        at,
    ))
}
