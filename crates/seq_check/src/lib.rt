//! The checker of reports. It stands on the instance, on the crate of bounds and on the report, and whoever
//! made the report is not trusted. With the search it shares the crate of bounds, and in it the order and the
//! estimates, which save it work: their contracts are proved, and no answer rests on how near they come. Each line is looked at in order, and the first bad
//! one is named with the lowest code that it breaks; where none is bad, the report shows a right strategy
//! and its cost, and a number that no right strategy undercuts.
//!
//! What a line costs: one of the head, of a class, a state or a test is one comparison with the model. An
//! `ask` takes the weight and both parts of its group, and a `leaf` the class that it names. The weights of
//! the classes and the costs of the tests are put in order once, so that no bound sorts. The group lines make
//! up the time of a long certificate. Before they are looked at, the bound of each tells which of them claim
//! less than their bound. A line then takes the bound of its group, and where it claims more, an estimate for
//! each test that splits the group. Where that shows that the test's sum is enough, nothing more is asked;
//! else both parts are looked up, and the bound of a part that isn't listed is taken. So a certificate costs
//! at most two bounds a line, and four look-ups, an estimate and two bounds a line and test.
#![tactic(auto)]

mod below;
mod claim;
mod gap;
mod groups;
mod head;
mod last;
mod laws;
mod listing;
mod looking;
mod lows;
mod missed;
mod model;
mod places;
mod report_check;
mod sized;
mod tree;

pub use laws::certified_holds;
pub use report_check::check;

#[cfg(test)]
mod tests;
