//! The top call: it reads the words of the command line, fetches the model, and writes the strategy or
//! the refusal. It sees every layer and has no algorithm of its own. The theorem of the whole program is the
//! contract of `run`.
#![tactic(auto)]

mod accepting;
mod answering;
mod asking;
mod due;
mod judging;
mod laws;
mod preparing;
mod reasoning;
mod refusing;
mod running;
mod sampling;
mod searching;
mod solving;
mod status;

pub use laws::{one_answer, one_system, solved_is_accepted};
pub use running::{run, run_quiet};
pub use status::Status;

#[cfg(test)]
mod limited;
#[cfg(test)]
mod tests;
#[cfg(test)]
mod texts;
