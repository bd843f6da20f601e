//! Where text is written to. What a sink took is told only where something can be known of it: a sink in memory tells its
//! bytes, standard output tells nothing. Either way a fault shows in a count that doesn't fall.

ghost use Rattle.std.specs.Prelude.{◌≡◌, ◌≤◌, ℕ, List, Option, length, IfOk};
ghost use Rattle.sig_edge.specs.Sink.{WritesSome, HasSinkCause};

/// Why a write took nothing.
#[derive(Clone, Copy, Debug, PartialEq, Eq)]
pub enum SinkFault {
    /// The sink couldn't write.
    Failed,
}

/// Takes bytes, one piece after another.
pub trait Sink {
    /// What was taken so far, where the sink tells it.
    ghost wrote: { Self → Option (List ℕ) };

    /// How many faults there were, up to its type's end.
    ghost faults: { Self → ℕ };

    /// Takes bytes from the front of the piece, and says how many.
    fn write(&mut self, piece: &[u8]) -> Result<usize, SinkFault>
        ensures bound { IfOk result (λ n. n ≤ length piece.now) }
        ensures bytes { WritesSome (wrote self.old) (wrote self.new) piece.now result }
        ensures cause { HasSinkCause (faults self.old) (faults self.new) piece.now result };
}
