//! What a yes of the checker is worth, as a law over all problems and reports: whoever made the report, one without a bad
//! line shows what it says.
ghost use Rattle.seq_check.specs.Laws.{CertifiedHolds};

use seq_theory::certificate_holds;

/// A report without a bad line draws a strategy that is right for all classes and costs what it says; the
/// least cost lies between its low and its cost, and is the cost where it says optimal.
pub fn certified_holds()
    ensures { CertifiedHolds }
{
    certificate_holds();
}
