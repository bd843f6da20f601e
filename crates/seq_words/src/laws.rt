//! What the steps are to the search. The rows of the published places, in order, are the core of the
//! words, and each step that changes it is one of the events of the core.
ghost use Rattle.seq_words.specs.Laws.{PublishingEnters, RaisingRaises, LoweringCaps, WritingLeaves, KnowingMoreAllows};

/// Publishing enters a group, a raise raises a row and a cap caps one, each by the event of the core
/// and where this is allowed; a group that is being written leaves the rows as they are. A load changes
/// no word. This call brings these laws to proofs, and does nothing.
pub fn steps_are_events()
    ensures publishing { PublishingEnters }
    ensures raising { RaisingRaises }
    ensures lowering { LoweringCaps }
    ensures writing { WritingLeaves }
{}

/// What some rows allow of a group, others allow too that have each of these with bounds that are no worse. So
/// a worker may keep rows of its own that lag behind what its seat knows, and raise and cap by them.
pub fn knowing_more_allows()
    ensures { KnowingMoreAllows }
{}
