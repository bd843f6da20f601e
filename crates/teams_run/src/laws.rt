//! That the program's answers leave no choice, as laws over all texts, plans and certificates.
//!
//! A text without breach has one flat model, which has one matrix, whose ambiguity groups have one problem. So what is due
//! for a plan and its files is one answer: a refusal, a verdict on a certificate, a matrix, figures. Reports of strategies
//! alone may differ, since a search may enter these groups or those; and each of them is accepted by `check`.
ghost use Rattle.teams_run.specs.Exact.{HasOneSystem, HasOneAnswer, SolvedIsAccepted};

use seq_cert::one_text;
use seq_theory::passage_holds;
use sig_flat::one_flat;
use sig_matrix::one_matrix;
use sig_reason::one_reasoning;

/// The flat model and the matrix of a text, in one mode or with all its tests, are the only ones.
pub fn one_system()
    ensures { HasOneSystem }
{
    one_flat();
    one_matrix();
}

/// For the bytes of a model, a plan, and a certificate or a log no two answers are due: whichever of Done, Bounded,
/// ModelRefused, Rejected and Conflict is, the others are not, and its text is the only one. Which of two reports of
/// strategies is optimal and which is bounded, their texts tell.
pub fn one_answer()
    ensures { HasOneAnswer }
{
    one_system();
    one_text();
    one_reasoning();
}

/// What `solve` wrote for some bytes and a mode is accepted by `check` for these bytes and this mode.
pub fn solved_is_accepted()
    ensures { SolvedIsAccepted }
{
    passage_holds();
}
