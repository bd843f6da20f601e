//! That a report and its text tell each other, as a law over all reports and all bytes.
ghost use Rattle.seq_cert.specs.BothWays.{IsToldOrBad, HasNoBad, HasOneFirst, IsOne};

use sig_lines::lines_hold;

/// Bytes are the text of one report, or have one first bad line, and not both.
pub fn one_text()
    ensures told { IsToldOrBad }
    ensures no_bad { HasNoBad }
    ensures first { HasOneFirst }
    ensures one { IsOne }
{
    lines_hold();
}
