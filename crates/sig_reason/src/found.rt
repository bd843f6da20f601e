//! What a test found, what a fault is called for it, and why no fault can be called anything.

ghost use Rattle.std.specs.Prelude.{◌≡◌};
ghost use Rattle.sig_reason.specs.declared.found.ReasonFault.TheVariants.{OutOfMemory};
ghost use Rattle.sig_reason.specs.Words.{label_word};

use std::alloc::{AllocError, AllocFailed};
use thiserror::Error;

/// What a test found, by the test's number.
#[derive(Clone, Copy, Debug, PartialEq, Eq)]
pub struct Finding {
    pub test: u32,
    pub failed: bool,
}

/// What the findings say of a fault.
#[derive(Clone, Copy, Debug, PartialEq, Eq)]
pub enum Label {
    /// It is in no consistent set of faults.
    Good,
    /// It is in every one.
    Bad,
    /// It is in a minimal one, but not in every one.
    Suspect,
    /// Anything else: nothing speaks for it, and nothing against it.
    Unknown,
}

impl Label {
    /// The label as it is printed.
    pub fn word(self) -> &'static str
        ensures { result.now ≡ label_word self }
    {
        match self {
            Label::Good => "good",
            Label::Bad => "bad",
            Label::Suspect => "suspect",
            Label::Unknown => "unknown",
        }
    }
}

/// What the findings say of the faults, by fault.
#[derive(Debug, Drop)]
pub struct Labelled {
    pub labels: Vec<Label>,
}

/// Why faults aren't labelled.
#[derive(Clone, Copy, Debug, PartialEq, Eq, Error)]
pub enum ReasonFault {
    /// No set of faults is consistent: of the failed tests, this is the lowest of which each fault that it detects is
    /// detected by a passed test too.
    #[error("no set of faults explains the findings")]
    Conflict { test: u32 },
    #[error("no memory")]
    OutOfMemory,
}

impl From<AllocError> for ReasonFault {
    ghost from_gives = { λ _ e. e ≡ OutOfMemory };

    fn from(_e: AllocError) -> ReasonFault {
        ReasonFault::OutOfMemory
    }
}

impl<T: Drop> From<AllocFailed<T>> for ReasonFault {
    ghost from_gives = { λ _ e. e ≡ OutOfMemory };

    fn from(_e: AllocFailed<T>) -> ReasonFault {
        ReasonFault::OutOfMemory
    }
}
