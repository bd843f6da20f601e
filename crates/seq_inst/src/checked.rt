//! A test, which computes, whether lists are those of a valid instance: what a caller that writes an instance
//! out shows where it makes it.
ghost use Rattle.seq_inst.specs.Checked.{CheckedHolds};

/// Lists that pass the test are those of a valid instance. Does nothing.
pub fn checked_holds()
    ensures { CheckedHolds }
{}
