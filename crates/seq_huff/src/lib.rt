//! Bounds of a group's least cost, and the greedy strategy.
//!
//! From below there are Huffman's cost of the classes' weights (Huffman, "A method for the construction
//! of minimum-redundancy codes", 1952), a bound in whole numbers made from it and the costs of the
//! splitting tests, and that bound one test further. From above there is what the greedy strategy
//! costs. The calls work in a `Scratch` of fixed arrays and take no memory; only `greedy` does, for the
//! strategy that it makes.
//!
//! A search asks for the bounds of many groups of one instance. It makes an `Order` of the instance once,
//! and `ordered_bound` then gives each bound without a sort. What it asks of a group's tests are their sums
//! over the bounds of their parts; an `Estimate` of the group gives a number that is at most such a sum and
//! takes far less time than the two bounds, so that most tests need not be evaluated.
#![tactic(auto)]

mod choice;
mod estimate;
mod lower;
mod mass;
mod merging;
mod order;
mod ordered;
mod potential;
mod ranked;
mod scratch;
mod sorting;
mod steps;
mod sums;
#[cfg(test)]
mod tests;
mod weights;

pub use choice::{greedy, greedy_cost};
pub use estimate::Estimate;
pub use lower::bound;
pub use order::Order;
pub use ordered::ordered_bound;
pub use scratch::Scratch;
pub use steps::one_step;
pub use weights::huffman;
