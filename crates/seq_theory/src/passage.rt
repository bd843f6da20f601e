//! The passage from single states to ambiguity groups: a search may work on the groups of states
//! that no test tells apart, and its results speak of the states.
ghost use Rattle.seq_theory.specs.PassageLaws.{PassageHolds, GroupsHold, ClassesHold};

/// Over the ambiguity groups a strategy is right, and costs what it costs, as over single states.
pub fn passage_holds()
    ensures { PassageHolds }
{}

/// Ambiguity groups are the sets of states with equal rows.
pub fn groups_hold()
    ensures { GroupsHold }
{}

/// The ambiguity groups of a system are a problem that a search can take.
pub fn classes_hold()
    ensures { ClassesHold }
{}
