//! The line that is due next: it is there, and of the form that its place asks, or it is bad. The readers of
//! all kinds of lines take a line by these two calls.
ghost use Rattle.std.specs.Prelude.{◌≡◌, ◌∷◌, [], ◌+◌, IfOk, IfErr};
ghost use Rattle.std.specs.Option.{ok_or};
ghost use Rattle.sig_lines.specs.Pieces.{lines_in, tail_in};
ghost use Rattle.seq_cert.specs.Reading.{bad_at};

use crate::fault::{ReportFault, bad_line};
use sig_lines::{LineReader, line_of};

/// The next line, with the reader behind it.
pub(crate) fn due_line(at: LineReader<'_>) -> Result<(&[u8], LineReader<'_>), ReportFault>
    ensures line { IfOk result (λ x. lines_in at.entry.rest.now ≡ x.0.now ∷ lines_in x.1.rest.now) }
    ensures tail { IfOk result (λ x. tail_in at.entry.rest.now ≡ tail_in x.1.rest.now) }
    ensures number { IfOk result (λ x. x.1.number ≡ at.entry.number + 1) }
    ensures none { IfErr result (λ e. (lines_in at.entry.rest.now ≡ []) × (e ≡ bad_at at.entry.number)) }
{
    match line_of(at) {
        Some((line, after)) => Ok((line, after)),
        None => Err(bad_line(at)),
    }
}

/// What the line says that the reader stands at, where it was found to be of its form.
pub(crate) fn or_bad<T>(found: Option<T>, at: LineReader<'_>) -> Result<T, ReportFault>
    ensures { result ≡ ok_or found (bad_at at.entry.number) }
{
    match found {
        Some(said) => Ok(said),
        None => Err(bad_line(at)),
    }
}
