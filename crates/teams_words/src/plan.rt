//! What a command line can ask for.
ghost use Rattle.std.specs.Prelude.{◌≡◌, true};
ghost use Rattle.teams_words.specs.Plans.{is_number, value_of, most_parts, IsSize};

use crate::numbers::number_in;
use sig_types::Text;
use thiserror::Error;

/// What is to be done.
#[derive(Clone, Copy, Debug, PartialEq, Eq)]
pub enum Action {
    /// Print a strategy of least expected cost.
    Solve,
    /// Check the certificate of a strategy.
    Check,
    /// Print which test detects which fault.
    Matrix,
    /// Print the figures of testability.
    Figures,
    /// Solve a chain of parts that the program makes itself, and print a summary.
    Sample,
    /// Say which faults may be present, given which tests passed and which failed.
    Reason,
}

/// What the words of a command line ask for.
#[derive(Debug, Drop)]
pub struct Plan {
    pub action: Action,
    /// The name of the model's file; for `sample` the number of parts in decimal digits.
    pub model: Text,
    /// The name of a certificate's file.
    pub cert: Option<Text>,
    /// How many threads search; 0 is the engine of one thread.
    pub workers: u32,
    /// How many groups may be entered.
    pub groups: u32,
    /// The mode to which the tests are limited.
    pub mode: Option<Text>,
    /// The name of a log's file.
    pub log: Option<Text>,
}

impl Plan {
    /// How many parts `sample` asks for.
    pub fn parts(&self) -> u32
        requires { is_number 1 most_parts self.now.model ≡ true }
        ensures parts { result ≡ value_of self.now.model }
        ensures size { IsSize result }
    {
        match number_in(self.model.as_str(), 1, 100) {
            Some(parts) => parts,
            None => unreachable!(),
        }
    }
}

/// Why there is no plan.
#[derive(Debug, Drop, Error)]
pub enum PlanFault {
    #[error("the words are no plan")]
    Usage,
    #[error("no memory")]
    OutOfMemory,
}
