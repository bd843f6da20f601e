//! That texts, lines and words are found again as they were written, as a law: who reads a text calls it
//! where its proof rests on that.
ghost use Rattle.sig_lines.specs.Laws.{LinesHold};

/// A text, its lines, their words and the numbers in them tell each other. Does nothing.
pub fn lines_hold()
    ensures { LinesHold }
{}
