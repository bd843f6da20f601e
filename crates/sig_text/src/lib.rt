//! The text of a model: from the bytes of a TOML document to a `Model`, or to the first breach.
//!
//! What is a document is toml's own definition. Which breaches its table has, in which order, and
//! which model it stands for, are plain definitions over toml's data in `specs/`; every reader here
//! answers the value exactly where there is no breach, and else the first of them. A table's entries
//! are gone over once, so reading takes time linear in the text.
#![tactic(auto)]

mod arrays;
mod keys;
mod names;
mod numbers;
mod reader;
mod tables;
mod values;

pub use reader::read_model;

#[cfg(test)]
mod tests;
