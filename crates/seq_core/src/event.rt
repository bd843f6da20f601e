//! The events that change the rows of a search, and why one is refused.
use seq_inst::Group;

/// What may happen to the rows: a group is entered, the low of the row at a place is raised to a number,
/// or its up is capped to one.
#[derive(Clone, Copy, Debug)]
pub enum Event {
    Enter { group: Group },
    Raise { place: u32, to: u64 },
    Cap { place: u32, to: u64 },
}

/// Why an event is refused.
#[derive(Clone, Copy, Debug, PartialEq, Eq)]
pub enum Illegal {
    /// The entered group has this place already.
    Repeated { place: u32 },
    /// There are as many rows as may be.
    Limit { rows: u32 },
    /// There are so many rows, and the place is none of theirs.
    NoPlace { rows: u32 },
    /// A low was to be raised above what the rows allow.
    TooHigh { asked: u64, allowed: u64 },
    /// An up was to be capped below what the rows allow.
    TooLow { asked: u64, allowed: u64 },
}
