//! Entering: the scribe of the bound words and the index from groups to places, behind one lock. A
//! worker that enters a group is told its place, new or not, and learns all that was published; each
//! group has one place.
//!
//! When a lock is taken, a proof knows of the value behind it what its type says and no more. So the
//! type carries a name for one set of words, and with it the fact that the scribe is theirs and that the
//! index agrees with it. Nothing is said of what other workers did between two locks. Only the entering
//! itself happens under the lock; bounds are read and written beside it.
#![tactic(auto)]

mod desk;
mod naming;
mod tables;

pub use desk::Entered;
pub use naming::Naming;
pub use tables::Tables;
