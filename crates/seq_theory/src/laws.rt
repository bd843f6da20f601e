//! The laws of costs, bounds, entered groups, events and certificates. Each holds for every problem,
//! also where several classes share a goal and so need not be told apart.
ghost use Rattle.seq_theory.specs.HuffmanLaw.{HuffmanIsLeast, HuffmanIsReached};
ghost use Rattle.seq_theory.specs.Recursions.{RecursionsHold, SoundRowsHold};
ghost use Rattle.seq_theory.specs.Laws.{HasLeast, BoundsHold, EnteredHolds, NoRowsAreSound, RunsHold, CertificateHolds, WalksHold, LowsAreClaims};

/// Huffman's cost of a list of weights is the least weighted path length of a binary tree with one
/// leaf for each weight.
pub fn huffman_is_least()
    ensures least { HuffmanIsLeast }
    ensures reached { HuffmanIsReached }
{}

/// Each group of a problem whose classes are told apart has a least cost.
pub fn has_least()
    ensures { HasLeast }
{}

/// The bound, the one-step bound, the least cost and greedy's cost stand in this order.
pub fn bounds_hold()
    ensures { BoundsHold }
{}

/// The greedy strategy, low, value and strategy of a group are made from those of its parts, to whatever
/// depth the parts go.
pub fn recursions_hold()
    ensures { RecursionsHold }
{}

/// Whatever was entered, low is at most the least cost, and the strategy costs the value.
pub fn entered_holds()
    ensures { EnteredHolds }
{}

/// At the start there are no rows, which are sound, and whatever allowed events are played, the rows stay
/// sound.
pub fn runs_hold()
    ensures start { NoRowsAreSound }
    ensures runs { RunsHold }
{}

/// The least cost of the group of each sound row lies between the row's low and its up.
pub fn sound_rows_hold()
    ensures { SoundRowsHold }
{}

/// Where a certificate's claims hold against each other, none is above its group's least cost; and
/// the lows of the entered groups hold against each other.
pub fn certificate_holds()
    ensures sound { CertificateHolds }
    ensures complete { LowsAreClaims }
{}

/// A search that takes the test of least sum enters wanted groups alone.
pub fn walks_hold()
    ensures { WalksHold }
{}
