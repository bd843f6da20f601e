//! Reading the strategy of a report. Its lines have no count: they go on as long as a line's first word is
//! `ask` or `leaf`. Whether they draw a tree is not a question of form.
ghost use Rattle.std.specs.Prelude.{◌≡◌};
ghost use Rattle.sig_lines.specs.Pieces.{words_in};
ghost use Rattle.seq_cert.specs.LineForms.{is_tree_line, tree_line_in};
ghost use Rattle.seq_cert.specs.Places.{asks_after};
ghost use Rattle.seq_cert.specs.Reading.{Gives, place, read_tree};

use crate::due_line::or_bad;
use crate::fault::ReportFault;
use crate::report::TreeLine;
use sig_lines::{LineReader, first_word, is_text, line_of, number_between, two_words};
use sig_types::List;
use std::alloc::Global;

/// The most asks that a report has.
const MOST_ASKS: u32 = 511;

fn tree_line_of(line: &[u8]) -> Option<TreeLine>
    ensures { result ≡ tree_line_in (words_in line.now) }
{
    let (first, second) = two_words(line)?;
    if is_text(first, b"ask") {
        let test = number_between(second, 0, u64::from(u32::MAX))?;
        Some(TreeLine::Ask { test: test as u32 })
    } else if is_text(first, b"leaf") {
        let class = number_between(second, 0, u64::from(u32::MAX))?;
        Some(TreeLine::Leaf {
            class: class as u32,
        })
    } else {
        None
    }
}

/// Whether the first word is `ask` or `leaf`.
fn is_tree(line: &[u8]) -> bool
    ensures { result ≡ is_tree_line (words_in line.now) }
{
    let first = first_word(line);
    is_text(first, b"ask") || is_text(first, b"leaf")
}

/// How many asks are left after a tree line.
#[tactic(auto, using(crate::proofs::TreeWords::some_asks))]
fn asks_left(asks: u32, line: TreeLine) -> Option<u32>
    ensures { result ≡ asks_after asks line }
{
    match line {
        TreeLine::Leaf { .. } => Some(asks),
        TreeLine::Ask { .. } => { if asks == 0 { None } else { Some(asks - 1) } }
    }
}

/// The tree lines, up to the first line of another kind.
pub(crate) fn tree_of(
    alloc: Global,
    start: LineReader<'_>,
) -> Result<(List<TreeLine>, LineReader<'_>), ReportFault>
    ensures { Gives (λ x. (x.0, place x.1)) result (read_tree 511 (place start.entry)) }
{
    let mut lines = List::new(alloc);
    let mut at = start;
    let mut asks = MOST_ASKS;
    loop {
        let Some((line, after)) = line_of(at) else {
            return Ok((lines, at));
        };
        if !is_tree(line) {
            return Ok((lines, at));
        }
        let node = or_bad(tree_line_of(line), at)?;
        let left = or_bad(asks_left(asks, node), at)?;
        lines.push(node)?;
        at = after;
        asks = left;
    }
}
