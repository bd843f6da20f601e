//! The outside, as the rest of the program sees it: a shelf that files are read from, a sink that text is written to, and a gate
//! that a worker passes at each turn. Each fault of a shelf or a sink raises a count, so that an answer that names a fault can
//! be held against its cause. `fetch` reads a whole file, `put_all` writes a whole text, and the shelf and the sink in memory
//! fail at chosen calls, so that each fault can be made to happen.
#![tactic(auto)]

mod gate;
mod memory_shelf;
mod memory_sink;
mod reading;
mod shelf;
mod sink;
mod writing;

pub use gate::{FreeGate, Gate};
pub use memory_shelf::MemShelf;
pub use memory_sink::MemSink;
pub use reading::{FetchFault, fetch};
pub use shelf::{Shelf, ShelfFault};
pub use sink::{Sink, SinkFault};
pub use writing::{PutFault, put_all};

#[cfg(test)]
mod tests;
