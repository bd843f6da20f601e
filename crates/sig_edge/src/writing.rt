//! Writing a whole text to a sink. A sink may take few bytes at a call, so the rest is offered again until all are taken. A sink
//! that takes none of what is left would never end it: that is a fault as well.

ghost use Rattle.std.specs.Prelude.{◌≡◌, ◌<◌, ◌≤◌, length, take, OnOk, OnErr, IfErr};
ghost use Rattle.sig_edge.specs.Causes.{Rose};
ghost use Rattle.sig_edge.specs.Sink.{Appends, sent_of};

use crate::sink::Sink;
use thiserror::Error;

/// Why a text wasn't written to its end.
#[derive(Debug, Drop, Error)]
pub enum PutFault {
    /// The sink took the first `sent` bytes and no more.
    #[error("write fault after {sent} bytes")]
    Failed { sent: u64 },
}

/// Has the sink take all bytes. It takes no memory.
pub fn put_all<K: Sink>(sink: &mut K, bytes: &[u8]) -> Result<(), PutFault>
    ensures all { OnOk result (Appends (K.wrote sink.old) (K.wrote sink.new) bytes.now) }

    // Where it fails, exactly the first bytes were taken, and not all of them.
    ensures part { IfErr result (λ e. Appends (K.wrote sink.old) (K.wrote sink.new) (take (sent_of e) bytes.now)) }
    ensures short { IfErr result (λ e. sent_of e < length bytes.now) }
    ensures cause { OnErr result (Rose (K.faults sink.old) (K.faults sink.new)) }
    ensures later { K.faults sink.old ≤ K.faults sink.new }
{
    let mut sent = 0usize;
    while sent < bytes.len() {
        match sink.write(&bytes[sent..]) {
            Ok(0) | Err(_) => return Err(PutFault::Failed { sent: sent as u64 }),
            Ok(n) => sent += n,
        }
    }
    Ok(())
}
