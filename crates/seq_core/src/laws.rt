//! Laws of rows and entered groups, over all problems. A search that keeps its rows elsewhere, as in
//! words that several workers share, changes them by these.
ghost use Rattle.seq_core.specs.Laws.{EntersKeep, RaisesKeep, CapsKeep, LowGrows, ValFalls, SoundAreGroups, TurnsSettle, TurnsStart, TurnsGoOn, TurnsEnd};

/// Rows stay sound where a real group is entered, where a row is raised to at most the low of its
/// group, and where it is capped to at least its value, both over all the rows' groups.
pub fn changes_keep()
    ensures enters { EntersKeep }
    ensures raises { RaisesKeep }
    ensures caps { CapsKeep }
{}

/// The low of a group grows, and its value falls, as groups are entered.
pub fn entering_helps()
    ensures low { LowGrows }
    ensures val { ValFalls }
{}

/// Rows settle one after another, in an order by size: where all smaller groups had their turns, what the
/// rows allow is the low and the value of the group whose turn it is; so after the last turn each row has
/// its own. An engine that looks up what it keeps settles its rows by this.
pub fn turns_settle()
    ensures turn { TurnsSettle }
    ensures start { TurnsStart }
    ensures next { TurnsGoOn }
    ensures end { TurnsEnd }
{}

/// The groups of sound rows are distinct, within the classes, and have two goals or more.
pub fn sound_rows_settle()
    ensures { SoundAreGroups }
{}
