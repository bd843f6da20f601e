//! The laws of the reports of right outcomes.
ghost use Rattle.seq_shown.specs.Laws.{ReportsHold, OutcomesPrint};

use seq_cert::one_text;
use seq_theory::certificate_holds;

/// The report of a right outcome is read back from its text, and no line of it is bad.
pub fn reports_hold()
    ensures { ReportsHold }
{
    one_text();
    certificate_holds();
}

/// A right outcome can be printed: it has room in a report where its labels are printable.
pub fn outcomes_print()
    ensures { OutcomesPrint }
{}
