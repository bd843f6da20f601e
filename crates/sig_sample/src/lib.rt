//! A model to try the program on: a chain of parts, each of which passes its signal on to the part behind it and to a
//! test point of its own. A fault is seen at its own point and at all behind it, so each test cuts the chain in two,
//! and the costs and weights vary along it. The model is made of the types of `sig_types`, as the reader makes one of
//! a text, and goes the same way from there.
#![tactic(auto)]

mod chain;
mod names;

pub use chain::sample;

#[cfg(test)]
mod tests;
