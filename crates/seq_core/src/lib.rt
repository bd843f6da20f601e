//! The core of the search: the entered groups with their bounds, and the events that change them.
//!
//! `Places` maps groups to places. `Core` is the list of rows under three events, enter, raise and cap,
//! each of which it accepts exactly where the rows allow it; so the rows stay sound whatever is played.
//! `lows` and `vals` work out the best bounds that a set of entered groups gives. All of these are the
//! plain reference: what an engine keeps to save work stands in its graph, in a crate above. The laws say
//! by which changes rows stay sound that are kept elsewhere.
#![tactic(auto)]

mod event;
mod laws;
mod machine;
mod places;
mod settling;
mod sums;
#[cfg(test)]
mod tests;

pub use event::{Event, Illegal};
pub use laws::{changes_keep, entering_helps, sound_rows_settle, turns_settle};
pub use machine::Core;
pub use places::Places;
pub use settling::{lows, smallest_first, vals};
