//! What a search prints of a right outcome, the checker accepts.
//!
//! The search and the checker share the definitions of a problem, of a report and of its text, and of code
//! the crate of bounds, and in it the order and the estimates. That an accepted report shows a right
//! strategy and true bounds is the checker's own law. This crate has the other direction: the report of a
//! right outcome is read back from its text, and no line of it is bad. So the checker refuses nothing that a
//! search prints.
//!
//! The crate has no code: the contracts of its public functions are laws over all problems and outcomes. So
//! its edits turn a statement, and show that it says no more than it should; edits of the search, of the
//! writer and of the checker stand with these.
#![tactic(auto)]

mod laws;

pub use laws::{outcomes_print, reports_hold};
