//! That a matrix and a log leave no choice of what is answered, as a law over all matrices and logs.
ghost use Rattle.sig_reason.specs.Laws.{HasOneReasoning};

/// Bytes are a log of one list of findings, or have one first bad line; each fault is called one thing, or one test is the conflict. Does nothing.
pub fn one_reasoning()
    ensures { HasOneReasoning }
{}
