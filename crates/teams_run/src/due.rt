//! What a run is to write before it ends.
ghost use Rattle.std.specs.Prelude.{◌≡◌};

use crate::status::Status;
use seq_inst::Verdict;

/// A text that is due to be written, and the status that goes with it.
#[derive(Drop)]
pub struct Due {
    pub status: Status,
    pub text: Vec<u8>,
}

impl Due {
    /// A text that tells an outcome: an optimal one is Done, and another is Bounded.
    pub fn of_verdict(verdict: Verdict, text: Vec<u8>) -> Due
        ensures text { result.text ≡ text }
        ensures optimal { verdict ≡ Verdict.Optimal → result.status ≡ Status.Done }
        ensures bounded { verdict ≡ Verdict.Bounded → result.status ≡ Status.Bounded }
    {
        let status = match verdict {
            Verdict::Optimal => Status::Done,
            Verdict::Bounded => Status::Bounded,
        };
        Due { status, text }
    }
}
