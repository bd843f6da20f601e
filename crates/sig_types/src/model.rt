//! A model as its text states it: blocks that are used inside one another, each with its parts, test points and links.
//!
//! The types say what the form of a text allows and no more: names are names and numbers are in their ranges, but a link
//! may still lead nowhere. What a model has to be beyond its form, `Model::check` looks at. Lists stand in the order of
//! the text, since the place of a refusal and the numbers of a flat model count along it.
use crate::list::List;
use crate::name::Name;
use crate::numbers::{Cost, Good, Weight};

/// A model of a system: its signals and modes, and its blocks, of which one is the top.
#[derive(Debug, Drop)]
pub struct Model {
    /// How often the system is met without a fault, beside the weights of the faults.
    pub good: Good,
    /// The block that is the whole system.
    pub top: Name,
    /// What flows along the links, and what faults spoil and tests watch.
    pub signals: List<Name>,
    /// The positions in which the switches may stand; none declared means the one mode `normal`.
    pub modes: List<Name>,
    /// A block may use the blocks before it.
    pub blocks: List<Block>,
}

/// A block: a piece of the system that may be used more than once. Its ports, switches, parts, uses and points share one
/// scope of names.
#[derive(Debug, Drop)]
pub struct Block {
    /// By which other blocks use it.
    pub name: Name,
    /// Where signals pass between it and the block that uses it.
    pub ports: List<Name>,
    /// Whose links exist in some modes alone.
    pub switches: List<Name>,
    /// What may have a fault.
    pub parts: List<Part>,
    /// Copies of earlier blocks inside it.
    pub uses: List<Used>,
    /// Where it can be tested.
    pub points: List<Point>,
    /// From where to where signals flow.
    pub links: List<Link>,
}

/// A part, with up to two faults of its own.
#[derive(Debug, Drop)]
pub struct Part {
    /// Its name in the block.
    pub name: Name,
    /// A fault that spoils some signals alone, where it can have one.
    pub functional: Option<Functional>,
    /// The weight of a fault that shows wherever a path of links leads, where it can have one.
    pub general: Option<Weight>,
    /// The signals that do not pass through the part.
    pub stops: List<Name>,
}

/// A fault of a part that spoils some signals alone.
#[derive(Debug, Drop)]
pub struct Functional {
    /// How often it is met, beside the other weights.
    pub weight: Weight,
    /// What it spoils.
    pub signals: List<Name>,
}

/// A copy of a block inside another.
#[derive(Clone, Copy, Debug)]
pub struct Used {
    /// The name of this copy in the block that holds it.
    pub name: Name,
    /// The name of the block that is copied.
    pub block: Name,
}

/// A point at which the system can be tested.
#[derive(Debug, Drop)]
pub struct Point {
    /// Its name in the block.
    pub name: Name,
    /// What can be tried there; their names are a scope of their own.
    pub tests: List<Test>,
}

/// A test: it fails where a spoilt signal that it watches arrives at its point.
#[derive(Debug, Drop)]
pub struct Test {
    /// Its name at the point.
    pub name: Name,
    /// What one run of it costs.
    pub cost: Cost,
    /// What it watches.
    pub signals: List<Name>,
    /// The mode in which it is run; the first of the model's where none is named.
    pub mode: Option<Name>,
}

/// A link, along which signals flow one way.
#[derive(Debug, Drop)]
pub struct Link {
    /// Where they come from.
    pub from: End,
    /// Where they go.
    pub to: End,
    /// The modes in which it exists where an end is a switch; empty for any other link, which always exists.
    pub modes: List<Name>,
}

/// An end of a link: an item of the block, or a port of a use of it.
#[derive(Clone, Copy, Debug)]
pub struct End {
    /// The item or the use.
    pub first: Name,
    /// The port of the used block, after a `.` in the text.
    pub second: Option<Name>,
}
