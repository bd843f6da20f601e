//! The theory of test sequencing: what a problem, a strategy, its cost and the least cost are, the
//! bounds of an AO* search, and what is proved of them. It has no code: its public functions have
//! empty bodies, and their contracts are laws over all problems.
//!
//! A problem is a set of classes (ambiguity groups) with weights, binary tests with costs, and
//! which class passes which test, after Pattipati and Alexandridis, "Application of heuristic
//! search and information theory to sequential fault diagnosis" (1990). The bound from Huffman's
//! cost in whole numbers is this project's own. Everything is stated over plain numbers and lists;
//! the code's types are read into it by one definition each, in the crates above.
//!
//! What the definitions say is tried on worked problems, whose numbers were found outside
//! (`proofs/Worked.antt`). There is no code for an edit to turn, so the edits turn a definition: each shows
//! that the laws do not hold of a word that is nearly the right one, and nothing of a program.
#![tactic(auto)]

mod laws;
mod passage;

pub use laws::{
    bounds_hold, certificate_holds, entered_holds, has_least, huffman_is_least, recursions_hold,
    runs_hold, sound_rows_hold, walks_hold,
};
pub use passage::{classes_hold, groups_hold, passage_holds};
