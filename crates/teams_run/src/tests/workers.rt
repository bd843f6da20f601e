//! What no clause says of workers: that they do run at once, that what is printed is what they found, and that
//! on a model which leaves them no choice every number of them prints the same. The gates wait by looking at a
//! flag, for a bounded time, so that each test ends.
use crate::limited::{HALVES, STAR};
use crate::texts::{BOX, BOX_REPORT};
use crate::{Status, run};
use sig_edge::{FreeGate, Gate, MemShelf, MemSink};
use std::alloc::{AllocError, Global};
use std::sync::Wait;
use std::sync::atomic::{AtomicBool, AtomicU64, Ordering};
use std::test::Fail;
use std::thread::Threads;
use std::{str, thread};

/// Whether the flag is seen up, within so many looks that a thread that runs has raised it.
fn is_seen(flag: &AtomicBool) -> bool {
    for _ in 0..200_000_000u64 {
        if flag.load(Ordering::SeqCst) {
            return true;
        }
        thread::yield_now();
    }
    false
}

/// Holds the first turn of each of the first two workers until the other's has begun. No order of one thread
/// gets past it.
#[derive(Drop)]
struct BothBegin {
    begun: [AtomicBool; 2],
    was_late: AtomicBool,
}

impl Gate for BothBegin {
    fn turn(&self, worker: u32, turn: u64) {
        if turn > 0 || worker > 1 {
            return;
        }
        let this = worker as usize;
        self.begun[this].store(true, Ordering::SeqCst);
        if !is_seen(&self.begun[1 - this]) {
            self.was_late.store(true, Ordering::SeqCst);
        }
    }
}

/// Holds the first turn of worker 0 until the second turn of worker 1 has begun.
#[derive(Drop)]
struct SecondGoesFirst {
    begun: AtomicBool,
    was_late: AtomicBool,
}

impl Gate for SecondGoesFirst {
    fn turn(&self, worker: u32, turn: u64) {
        if worker == 1 && turn == 1 {
            self.begun.store(true, Ordering::SeqCst);
        }
        if worker == 0 && turn == 0 && !is_seen(&self.begun) {
            self.was_late.store(true, Ordering::SeqCst);
        }
    }
}

/// Makes the turns of two workers alternate, as long as both have turns left: a worker whose other one has ended
/// waits in vain, and goes on. The greatest turn is noted.
#[derive(Drop)]
struct InTurns {
    begun: [AtomicU64; 2],
    greatest: AtomicU64,
}

impl Gate for InTurns {
    fn turn(&self, worker: u32, turn: u64) {
        self.greatest.fetch_max(turn, Ordering::SeqCst);
        if worker > 1 {
            return;
        }
        let this = worker as usize;
        self.begun[this].fetch_max(turn.saturating_add(1), Ordering::SeqCst);
        for _ in 0..10_000u64 {
            if self.begun[1 - this].load(Ordering::SeqCst) >= turn {
                return;
            }
            thread::yield_now();
        }
    }
}

/// How a command ends under a gate where a text and a certificate are held, and what it writes.
fn ended<R: Threads + Wait + Sync, G: Gate + Sync>(
    rt: &R,
    gate: &G,
    alloc: Global,
    words: Vec<String>,
    text: &str,
    cert: &str,
) -> Result<(Status, Vec<u8>), AllocError> {
    let mut shelf = MemShelf::new(alloc, Vec::new(alloc));
    shelf.add("m.toml", text.as_bytes())?;
    shelf.add("c", cert.as_bytes())?;
    let mut sink = MemSink::new(alloc, 4096, 4096, Vec::new(alloc))?;
    let status = run(rt, alloc, words.as_slice(), &mut shelf, &mut sink, gate);
    let wrote = Vec::from_slice(alloc, sink.wrote())?;
    Ok((status, wrote))
}

/// How `solve` ends on a text with a number of workers and a limit of groups, under a gate, and what it writes.
fn solved<R: Threads + Wait + Sync, G: Gate + Sync>(
    rt: &R,
    gate: &G,
    alloc: Global,
    text: &str,
    workers: u64,
    groups: u64,
) -> Result<(Status, Vec<u8>), AllocError> {
    let mut words = Vec::new(alloc);
    words.push(String::from_str(alloc, "solve")?)?;
    words.push(String::from_str(alloc, "m.toml")?)?;
    words.push(format!(in alloc; "--workers={workers}")?)?;
    words.push(format!(in alloc; "--groups={groups}")?)?;
    ended(rt, gate, alloc, words, text, "")
}

/// What `check` says of a report.
fn judged<R: Threads + Wait + Sync>(
    rt: &R,
    alloc: Global,
    text: &str,
    report: &str,
) -> Result<Vec<u8>, AllocError> {
    let mut words = Vec::new(alloc);
    for word in ["check", "m.toml", "--cert=c"] {
        words.push(String::from_str(alloc, word)?)?;
    }
    let (_status, wrote) = ended(rt, &FreeGate, alloc, words, text, report)?;
    Ok(wrote)
}

/// Workers that have no choice print what one thread prints, however many they are.
#[test]
fn any_number_of_workers(rt: HostRuntime) -> Result<(), Fail> {
    let alloc = rt.alloc();
    for workers in 0..17u64 {
        let (status, wrote) = solved(&rt, &FreeGate, alloc, BOX, workers, 4000)?;
        assert_eq!(rt; status.number(), 0, "{workers} workers");
        assert_eq!(rt; wrote.as_slice(), BOX_REPORT.as_bytes());
    }
    for workers in [1, 2, 8, 16u64] {
        let (status, wrote) = solved(&rt, &FreeGate, alloc, STAR, workers, 5)?;
        assert_eq!(rt; status.number(), 0, "{workers} workers");
        let report = str::from_utf8(wrote.as_slice())?;
        assert!(rt; report.contains("\ncost 14\nlow 14\ngap 0\nlimit 5\ngroups 5\n"));
        let said = judged(&rt, alloc, STAR, report)?;
        assert_eq!(rt;
            said.as_slice(),
            b"accepted optimal cost 14 low 14\n".as_slice()
        );
    }
    Ok(())
}

#[test]
fn two_at_once(rt: HostRuntime) -> Result<(), Fail> {
    let gate = BothBegin {
        begun: [AtomicBool::new(false), AtomicBool::new(false)],
        was_late: AtomicBool::new(false),
    };
    let (status, _wrote) = solved(&rt, &gate, rt.alloc(), STAR, 2, 5)?;
    assert_eq!(rt; status.number(), 0);
    assert!(rt; gate.begun[0].load(Ordering::SeqCst));
    assert!(rt; gate.begun[1].load(Ordering::SeqCst));
    assert!(rt; !gate.was_late.load(Ordering::SeqCst));
    Ok(())
}

/// A turn enters a group or closes one, so a worker has at most twice as many as there are places.
#[test]
fn turns_of_two_workers(rt: HostRuntime) -> Result<(), Fail> {
    let alloc = rt.alloc();
    let gate = InTurns {
        begun: [AtomicU64::new(0), AtomicU64::new(0)],
        greatest: AtomicU64::new(0),
    };
    let (status, wrote) = solved(&rt, &gate, alloc, STAR, 2, 5)?;
    assert_eq!(rt; status.number(), 0);
    assert!(rt; gate.greatest.load(Ordering::SeqCst) <= 10);
    let report = str::from_utf8(wrote.as_slice())?;
    assert!(rt; report.contains("\ncost 14\nlow 14\ngap 0\nlimit 5\ngroups 5\n"));
    let said = judged(&rt, alloc, STAR, report)?;
    assert_eq!(rt;
        said.as_slice(),
        b"accepted optimal cost 14 low 14\n".as_slice()
    );
    Ok(())
}

/// One thread enters the passing half of the eight parts, and worker 1 the failing half, if it comes first. So
/// the report shows whose groups it is made of.
#[test]
fn the_report_is_of_what_workers_found(rt: HostRuntime) -> Result<(), Fail> {
    let alloc = rt.alloc();
    let gate = SecondGoesFirst {
        begun: AtomicBool::new(false),
        was_late: AtomicBool::new(false),
    };
    let (status, wrote) = solved(&rt, &gate, alloc, HALVES, 2, 2)?;
    assert_eq!(rt; status.number(), 3);
    assert!(rt; !gate.was_late.load(Ordering::SeqCst));
    let report = str::from_utf8(wrote.as_slice())?;
    assert!(rt; report.contains("\nresult bounded\ncost 26\nlow 25\ngap 1\nlimit 2\ngroups 2\n"));
    assert!(rt; report.contains("\ngroup 4 f0 9\ngroup 8 ff 25\nmissed 4 f\nend\n"));
    let said = judged(&rt, alloc, HALVES, report)?;
    assert_eq!(rt;
        said.as_slice(),
        b"accepted bounded cost 26 low 25\n".as_slice()
    );
    Ok(())
}
