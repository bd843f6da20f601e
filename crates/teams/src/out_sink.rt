//! A writer as a sink. It tells nothing of what it took, since what a terminal, a device or a pipe does with its bytes can't be
//! known.
//!
//! Each piece is written through to the system before the call answers, so that a device that is full or a pipe that nobody reads
//! is a fault of the write that met it, and not of an end that nobody looks at.

ghost use Rattle.std.specs.Prelude.{None, ◌≡◌, ◌≤◌, length, IfOk};

use sig_edge::{Sink, SinkFault};
use std::io;
use std::io::Write;

/// A writer, as standard output is one.
#[derive(Drop)]
pub struct OutSink<W: Write + Drop> {
    out: W,
    faults: u64,
}

impl<W: Write + Drop> OutSink<W> {
    /// A sink that had no fault.
    pub fn new(out: W) -> OutSink<W>
        ensures { result.faults ≡ 0 }
    {
        OutSink { out, faults: 0 }
    }
}

impl<W: Write + Drop> Sink for OutSink<W> {
    ghost wrote = { λ _. None };

    ghost faults = { λ sink. sink.faults };

    fn write(&mut self, piece: &[u8]) -> Result<usize, SinkFault> {
        match write_through(&mut self.out, piece) {
            Ok(0) if !piece.is_empty() => {
                self.faults = self.faults.saturating_add(1);
                Ok(0)
            }
            Ok(n) => Ok(n),
            Err(_) => {
                self.faults = self.faults.saturating_add(1);
                Err(SinkFault::Failed)
            }
        }
    }
}

/// Writes once, and leaves nothing of it in a buffer.
fn write_through<W: Write>(out: &mut W, piece: &[u8]) -> io::Result<usize>
    ensures { IfOk result (λ n. n ≤ length piece.now) }
{
    let n = out.write(piece)?;
    out.flush()?;
    Ok(n)
}
