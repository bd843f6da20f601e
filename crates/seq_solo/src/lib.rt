//! The search on one thread: AO* over groups of classes, after Pattipati and Alexandridis (1990).
//!
//! A turn walks down from the group of all classes by the test of least sum over what is known of its
//! parts. It enters the first part that is not known, or closes a group whose parts are closed, and then
//! raises and caps the groups that it came through. So lows rise and ups fall until they meet in the
//! group of all classes, or the limit of groups is met. Only wanted groups are entered, and the rows are
//! sound throughout. What is known of the groups stands in a `Graph`, which serves at the end, when the rows
//! are settled for the outcome.
#![tactic(auto)]

mod alone;
mod entering;
mod found;
#[cfg(test)]
mod tests;
mod turn;

pub use alone::{solve_alone, walk};
pub use found::{Found, Walked};
