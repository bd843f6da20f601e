//! The bound words: the groups that a search has entered, with their lows and ups, in words that
//! several workers share. `make_words` makes them with the scribe, which alone publishes groups, and a
//! seat for each worker. A worker learns places from the scribe, looks at a place, and raises its low or
//! lowers its up, by one atomic step each; no call waits for another, and none but `make_words` takes
//! memory. At the end `close` gives the rows.
//!
//! The method is rely and guarantee (Jones 1983) with ghost knowledge for each thread: a view says what
//! a seat has learnt of the words, and one rule says that each view is true of them and that the rows of
//! the published places are sound. The rule is kept by each kind of step from any state that meets it,
//! so it holds between any two steps of any seats. A raise or a cap is licensed by the seat's own view
//! alone. This is enough: a low that was seen is at most the low word, an up that was seen at least the
//! up word, and groups are only ever added. Views are ghost: no seat copies anything.
#![tactic(auto)]

mod bounding;
mod closing;
mod laws;
mod layout;
mod learning;
mod making;
mod plays;
mod publishing;
mod rule;
mod seeing;
#[cfg(test)]
mod tests;
mod view;
mod words;

pub use bounding::{lower_cap, raise};
pub use closing::{Closed, close};
pub use laws::{knowing_more_allows, steps_are_events};
pub use learning::{learn, learn_at};
pub use making::{Made, make_words};
pub use publishing::publish;
pub use seeing::see;
pub use view::Seen;
pub use words::{Scribe, Seat, Words};
