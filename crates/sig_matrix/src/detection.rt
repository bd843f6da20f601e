//! Whether one test detects one fault.
//!
//! A general fault is seen along free paths. A functional one needs a signal that is both the fault's and the test's, and
//! a path for it: the common signals are one `and` of two words, and those of them that come through are one more.

ghost use Rattle.std.specs.Prelude.{◌≡◌, ℕ, ◌<◌, ◌↔◌, true, length, IsTrue};
ghost use Rattle.sig_types.specs.Sets.{has_bit};
ghost use Rattle.sig_reach.specs.Marks.{is_marked};
ghost use Rattle.sig_reach.specs.Paths.{HasSignalPath};
ghost use Rattle.sig_matrix.specs.Detection.{Detects};

use sig_flat::{Fault, FlatTest};
use sig_reach::ReachTo;

/// Whether a path for one of the signals, which are bits, leads from the one node to the other.
fn carries_any(reach: &ReachTo, from: u32, signals: u64, to: u32) -> bool
    requires from { from < length reach.now.flat.nodes }
    requires to { is_marked reach.now.wanted to ≡ true }
    ensures { IsTrue result ↔ ((s : ℕ) × (has_bit signals s ≡ true) × HasSignalPath reach.now.flat reach.now.mode s from to) }
{
    signals & reach.carried(from, to) != 0
}

/// Whether the test, made in the mode of the reach, detects the fault.
pub fn is_detected(reach: &ReachTo, fault: &Fault, test: &FlatTest) -> bool
    requires mode { reach.now.mode ≡ test.now.mode }
    requires part { fault.now.node < length reach.now.flat.nodes }
    requires point { is_marked reach.now.wanted test.now.node ≡ true }
    ensures { IsTrue result ↔ Detects reach.now.flat fault.now test.now }
{
    if fault.general {
        return reach.joins(fault.node, test.node);
    }
    let common = fault.signals.0 & test.signals.0;
    common != 0 && carries_any(reach, fault.node, common, test.node)
}
