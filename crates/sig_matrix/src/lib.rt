//! Which test detects which fault: the matrix of a flat model, and its text.
//!
//! The layer takes a flat model and gives a row of bits for each fault, one bit for each test that is taken: all tests,
//! or those of one mode. A fault is detected where a path leads from its part to the test's point, as `sig_reach`
//! tells. From here on nothing is known of nodes, links and signals.
#![tactic(auto)]

mod building;
mod detection;
mod laws;
mod matrix;
mod row;
mod text;

pub use building::matrix_of;
pub use laws::one_matrix;
pub use matrix::{FaultRow, Matrix};
pub use row::{has_test, with_test};
pub use text::matrix_text;

#[cfg(test)]
mod tests;
