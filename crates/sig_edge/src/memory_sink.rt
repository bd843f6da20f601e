//! A sink in memory, for tests and for laws about whole runs: it tells what it took, takes few bytes at a call where it is told
//! to, and fails at just the calls that it was told to fail at. All its memory is taken when it is made.

ghost use Rattle.std.specs.Prelude.{◌≡◌, ◌↔◌, ◌≤◌, ◌+◌, ◌<◌, Some, IsOk, IfOk, OnErr, length, vec_len, vec_capacity};
ghost use Rattle.sig_edge.specs.Causes.{one_more};
ghost use Rattle.sig_edge.specs.Sink.{WritesSome, HasSinkCause};

use crate::sink::{Sink, SinkFault};
use std::alloc::{AllocError, Global};

/// A sink of a fixed room. A write whose number, from 1, is in `fail` answers a fault.
#[derive(Debug, Drop)]
pub struct MemSink {
    bytes: Vec<u8>,
    room: usize,
    most: usize,
    fail: Vec<u64>,
    calls: u64,
    faults: u64,
    ghost within: { vec_len bytes ≤ room },
    ghost reserved: { room ≤ vec_capacity bytes },
    ghost takes_some: { 1 ≤ most },
}

impl MemSink {
    ghost use Rattle.sig_edge.specs.MemSink.{taken, IsNewSink};

    /// Takes memory for `room` bytes; no later call takes any. Each write takes at most `most` bytes, and at most the room
    /// that is left. `fail` has the numbers of the writes, from 1, that are to fail.
    pub fn new(
        alloc: Global,
        room: usize,
        most: usize,
        fail: Vec<u64>,
    ) -> Result<MemSink, AllocError>
        requires { 1 ≤ most }
        ensures { IfOk result (λ sink. IsNewSink sink room most fail.items) }
    {
        Ok(MemSink {
            bytes: Vec::with_capacity(alloc, room)?,
            room,
            most,
            fail,
            calls: 0,
            faults: 0,
        })
    }

    /// What was taken so far.
    pub fn wrote(&self) -> &[u8]
        ensures { result.now ≡ taken self.now }
    {
        self.bytes.as_slice()
    }
}

impl Sink for MemSink {
    ghost use Rattle.sig_edge.specs.MemSink.{taken, sink_faults, FailsNext, FindsNoRoom, failed_once, TakesPart};

    ghost wrote = { λ sink. Some (taken sink) };

    ghost faults = { λ sink. sink_faults sink };

    fn write(&mut self, piece: &[u8]) -> Result<usize, SinkFault>
        ensures bound { IfOk result (λ n. n ≤ length piece.now) }
        ensures bytes { WritesSome (Some (taken self.old)) (Some (taken self.new)) piece.now result }
        ensures cause { HasSinkCause (sink_faults self.old) (sink_faults self.new) piece.now result }

        // It fails at just the calls that are to fail, and then changes nothing but the counts.
        ensures fails { (result ≡ Err SinkFault.Failed) ↔ FailsNext self.old }
        ensures failed { OnErr result (self.new ≡ failed_once self.old) }

        // Else it takes what it can, and counts a fault only where it finds no room.
        ensures part { IfOk result (λ n. TakesPart self.old self.new piece.now n) }
        ensures no_room { IsOk result → FindsNoRoom self.old piece.now → sink_faults self.new ≡ one_more (sink_faults self.old) }
        ensures no_fault { IsOk result → ¬ FindsNoRoom self.old piece.now → sink_faults self.new ≡ sink_faults self.old }
    {
        self.calls = self.calls.saturating_add(1);
        if self.fail.contains(&self.calls) {
            self.faults = self.faults.saturating_add(1);
            return Err(SinkFault::Failed);
        }
        let free = self.room - self.bytes.len();
        if free == 0 && !piece.is_empty() {
            self.faults = self.faults.saturating_add(1);
            return Ok(0);
        }
        let n = piece.len().min(self.most).min(free);
        self.bytes.extend_from_slice(&piece[..n]).unwrap();
        Ok(n)
    }
}
