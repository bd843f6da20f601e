//! The types of a model of a system, as its text states it: blocks of ports, switches, parts, uses, test points and
//! links, with names, weights and costs that are in their ranges by type; and refusals with their places. The
//! definition of all breaches of a model stands in `specs/Breaches.antt`. `Model::check` makes a `Valid` of a model
//! without a breach, and else tells the first; names are looked up in sets, so that it takes a few look-ups for each
//! name of the model.
#![tactic(auto)]

mod check;
mod list;
mod model;
mod name;
mod numbers;
mod refusals;
mod sets;
mod spot;
mod symbols;
mod text;
mod valid;

pub use list::List;
pub use model::{Block, End, Functional, Link, Model, Part, Point, Test, Used};
pub use name::Name;
pub use numbers::{Cost, Good, Weight};
pub use refusals::{Code, Counted, Key, Kind, ModelFault, Place, Refusal};
pub use sets::{Modes, Signals};
pub use spot::Spot;
pub use text::Text;
pub use valid::Valid;

#[cfg(test)]
mod tests;
