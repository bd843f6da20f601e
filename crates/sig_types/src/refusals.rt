//! Why a text or a model is refused: a code for the rule that is broken, and the place in the document.
//!
//! A refusal is plain data, with no text of its own, so that a caller can print it, count it or lead an editor to the
//! place. Each enum has the word by which it is written, so that the reader of texts and the writer of refusals agree.
ghost use Rattle.std.specs.Prelude.{◌≡◌};
ghost use Rattle.sig_types.specs.Words.{code_word, counted_word, key_word, kind_word};

use std::alloc::{AllocError, AllocFailed};
use thiserror::Error;

/// Why a text or a model is refused, and where.
#[derive(Clone, Copy, Debug)]
pub struct Refusal {
    pub code: Code,
    pub place: Place,
}

/// The rule that is broken. M01 to M06 and M09 are found by the reader of a text, M07 to M12 and the first three
/// counts of M13 by the check of a model, the rest once the model is flat or a mode is asked for.
#[derive(Clone, Copy, Debug, PartialEq, Eq)]
pub enum Code {
    /// The bytes are no document.
    M01,
    /// The version of the form is another.
    M02,
    /// A key is missing.
    M03,
    /// A table has a key that is not known there.
    M04,
    /// A value is of another kind than the key asks.
    M05,
    /// A string is no name, or no end of a link.
    M06,
    /// A name repeats in its scope.
    M07,
    /// A name is not known.
    M08,
    /// A number is out of its range.
    M09,
    /// A block uses itself or a later one.
    M10,
    /// A use stands without a port, or something else with one.
    M11,
    /// Modes are named though no end of the link is a switch, or none though one is.
    M12,
    /// There are too many of something.
    M13,
    /// There is no state at all.
    M14,
    /// The mode that is asked for is not one of the model.
    M15,
}

impl Code {
    /// The code as it is printed.
    pub fn word(self) -> &'static str
        ensures { result.now ≡ code_word self }
    {
        match self {
            Code::M01 => "M01",
            Code::M02 => "M02",
            Code::M03 => "M03",
            Code::M04 => "M04",
            Code::M05 => "M05",
            Code::M06 => "M06",
            Code::M07 => "M07",
            Code::M08 => "M08",
            Code::M09 => "M09",
            Code::M10 => "M10",
            Code::M11 => "M11",
            Code::M12 => "M12",
            Code::M13 => "M13",
            Code::M14 => "M14",
            Code::M15 => "M15",
        }
    }
}

/// Where a rule is broken.
#[derive(Clone, Copy, Debug)]
pub enum Place {
    /// The document as a whole.
    Document,
    /// The states of the model, of which there is none.
    States,
    /// The mode that was asked for beside the document.
    ModeOption,
    /// The number of all that is counted.
    Count(Counted),
    /// At a table, a key or an element, each given as far as the place goes. All numbers count from 0.
    In {
        /// Which block of the document.
        block: Option<u64>,
        /// Which item of that kind in the block.
        item: Option<(Kind, u64)>,
        /// Which test of the point.
        test: Option<u64>,
        /// Which key of that table.
        key: Option<Key>,
        /// Which element of the array at the key.
        element: Option<u64>,
    },
}

/// What there may be only so many of.
#[derive(Clone, Copy, Debug, PartialEq, Eq)]
pub enum Counted {
    Signals,
    Modes,
    Blocks,
    Depth,
    Uses,
    Nodes,
    Links,
    Faults,
    Tests,
    Classes,
}

impl Counted {
    /// Its word in a printed refusal.
    pub fn word(self) -> &'static str
        ensures { result.now ≡ counted_word self }
    {
        match self {
            Counted::Signals => "signals",
            Counted::Modes => "modes",
            Counted::Blocks => "blocks",
            Counted::Depth => "depth",
            Counted::Uses => "uses",
            Counted::Nodes => "nodes",
            Counted::Links => "links",
            Counted::Faults => "faults",
            Counted::Tests => "tests",
            Counted::Classes => "classes",
        }
    }
}

/// What a block is made of, of which each is a table of its own in a text.
#[derive(Clone, Copy, Debug, PartialEq, Eq)]
pub enum Kind {
    Part,
    Use,
    Point,
    Link,
}

impl Kind {
    /// The key under which the items of the kind stand in a text.
    pub fn word(self) -> &'static str
        ensures { result.now ≡ kind_word self }
    {
        match self {
            Kind::Part => "part",
            Kind::Use => "use",
            Kind::Point => "point",
            Kind::Link => "link",
        }
    }
}

/// The keys that the tables of a text may have.
#[derive(Clone, Copy, Debug, PartialEq, Eq)]
pub enum Key {
    Version,
    Good,
    Top,
    Signals,
    Modes,
    Block,
    Name,
    Ports,
    Switches,
    Part,
    Use,
    Point,
    Link,
    Functional,
    General,
    Stops,
    Test,
    Cost,
    Mode,
    From,
    To,
}

impl Key {
    /// The key as it is written in a text.
    pub fn word(self) -> &'static str
        ensures { result.now ≡ key_word self }
    {
        match self {
            Key::Version => "version",
            Key::Good => "good",
            Key::Top => "top",
            Key::Signals => "signals",
            Key::Modes => "modes",
            Key::Block => "block",
            Key::Name => "name",
            Key::Ports => "ports",
            Key::Switches => "switches",
            Key::Part => "part",
            Key::Use => "use",
            Key::Point => "point",
            Key::Link => "link",
            Key::Functional => "functional",
            Key::General => "general",
            Key::Stops => "stops",
            Key::Test => "test",
            Key::Cost => "cost",
            Key::Mode => "mode",
            Key::From => "from",
            Key::To => "to",
        }
    }
}

/// Why no model came out.
#[derive(Debug, Drop, Error)]
pub enum ModelFault {
    #[error("the model is refused")]
    Refused(Refusal),
    #[error("no memory")]
    OutOfMemory,
}

impl From<AllocError> for ModelFault {
    ghost use Rattle.std.specs.Prelude.{◌≡◌};
    ghost use Rattle.sig_types.specs.declared.refusals.ModelFault.TheVariants.{OutOfMemory};

    ghost from_gives = { λ _ fault. fault ≡ OutOfMemory };

    fn from(_fault: AllocError) -> ModelFault {
        ModelFault::OutOfMemory
    }
}

impl<T: Drop> From<AllocFailed<T>> for ModelFault {
    ghost use Rattle.std.specs.Prelude.{◌≡◌};
    ghost use Rattle.sig_types.specs.declared.refusals.ModelFault.TheVariants.{OutOfMemory};

    ghost from_gives = { λ _ fault. fault ≡ OutOfMemory };

    fn from(_fault: AllocFailed<T>) -> ModelFault {
        ModelFault::OutOfMemory
    }
}
