//! The command line of `teams`: the words that follow the program's name, read as a plan.
//!
//! What a plan is stands in `specs/Words.antt` and `specs/Plans.antt`, apart from the code: the words give lists, the
//! values of each option and the other words, and a plan is a function of these lists where they pass its tests. The
//! code tests the form of the words and then hands them to `clap`, whose values alone make the plan. Where the form
//! is good, `clap` fails for want of memory alone.
#![tactic(auto)]

mod command;
mod numbers;
mod parts;
mod plan;
mod planning;
mod word;

pub use plan::{Action, Plan, PlanFault};
pub use planning::plan_of;

#[cfg(test)]
mod tests;
