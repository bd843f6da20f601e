//! Each write and each read of one run is made to fail in turn. What was sent before a failing write is the start of the
//! report, and behind a failing read nothing is written. A file that comes in small pieces reads as one that comes at
//! once; its end is known only by the read that gives nothing, so that read is among those that may fail.
use super::words_of;
use crate::texts::{BOX, BOX_REPORT};
use crate::{Status, run, run_quiet};
use sig_edge::{FreeGate, MemShelf, MemSink};
use sig_types::Text;
use std::alloc::{AllocError, Global};
use std::sync::Wait;
use std::test::Fail;
use std::thread::Threads;
use teams_words::{Action, Plan};

/// How `solve` of the two-part box ends on this thread alone.
fn solved(alloc: Global, shelf: &mut MemShelf, sink: &mut MemSink) -> Result<Status, AllocError> {
    shelf.add("m.toml", BOX.as_bytes())?;
    let plan = Plan {
        action: Action::Solve,
        model: Text::of(alloc, "m.toml")?,
        cert: None,
        workers: 0,
        groups: 4000,
        mode: None,
        log: None,
    };
    Ok(run_quiet(alloc, &plan, shelf, sink))
}

/// The report has 266 bytes, so 27 writes of at most ten bytes suffice.
#[test]
fn each_write_fails(rt: HostRuntime) -> Result<(), Fail> {
    let alloc = rt.alloc();
    for call in 1..29usize {
        let mut shelf = MemShelf::new(alloc, Vec::new(alloc));
        let mut sink = MemSink::new(alloc, 4096, 10, vec![in alloc; call as u64]?)?;
        let status = solved(alloc, &mut shelf, &mut sink)?;
        let (number, sent) = if call < 28 {
            (5, 10 * (call - 1))
        } else {
            (0, 266)
        };
        assert_eq!(rt; status.number(), number, "write {call}");
        assert_eq!(rt; sink.wrote().len(), sent, "write {call}");
        assert!(rt;
            BOX_REPORT.as_bytes().starts_with(sink.wrote()),
            "write {call}"
        );
    }
    Ok(())
}

/// The text has 384 bytes. Two reads suffice where it comes at once, and 385 where it comes byte by byte.
#[test]
fn each_read_fails(rt: HostRuntime) -> Result<(), Fail> {
    let alloc = rt.alloc();
    for (most, call, number, report) in [
        (usize::MAX, 1, 4, ""),
        (usize::MAX, 2, 4, ""),
        (usize::MAX, 3, 0, BOX_REPORT),
        (1, 385, 4, ""),
        (1, 386, 0, BOX_REPORT),
    ] {
        let mut shelf = MemShelf::new(alloc, vec![in alloc; call]?);
        assert!(rt; most > 0);
        shelf.pieces(most);
        let mut sink = MemSink::new(alloc, 4096, 4096, Vec::new(alloc))?;
        let status = solved(alloc, &mut shelf, &mut sink)?;
        assert_eq!(rt; status.number(), number, "read {call} of {most} bytes");
        assert_eq!(rt;
            sink.wrote(),
            report.as_bytes(),
            "read {call} of {most} bytes"
        );
    }
    Ok(())
}

#[test]
fn small_pieces(rt: HostRuntime) -> Result<(), Fail> {
    let alloc = rt.alloc();
    for most in [1, 7, 64usize] {
        let mut shelf = MemShelf::new(alloc, Vec::new(alloc));
        assert!(rt; most > 0);
        shelf.pieces(most);
        let mut sink = MemSink::new(alloc, 4096, 4096, Vec::new(alloc))?;
        let status = solved(alloc, &mut shelf, &mut sink)?;
        assert_eq!(rt; status.number(), 0, "pieces of {most} bytes");
        assert_eq!(rt;
            sink.wrote(),
            BOX_REPORT.as_bytes(),
            "pieces of {most} bytes"
        );
    }
    Ok(())
}

/// How `solve` ends on the two-part box with these failing reads and writes of at most ten bytes.
fn faulty<R: Threads + Wait + Sync>(
    rt: &R,
    alloc: Global,
    name: &str,
    fail_reads: Vec<u64>,
    fail_writes: Vec<u64>,
) -> Result<(Status, Vec<u8>), AllocError> {
    let mut shelf = MemShelf::new(alloc, fail_reads);
    shelf.add("m.toml", BOX.as_bytes())?;
    let mut sink = MemSink::new(alloc, 4096, 10, fail_writes)?;
    let words = words_of(alloc, &["solve", name])?;
    let status = run(
        rt,
        alloc,
        words.as_slice(),
        &mut shelf,
        &mut sink,
        &FreeGate,
    );
    let wrote = Vec::from_slice(alloc, sink.wrote())?;
    Ok((status, wrote))
}

#[test]
fn a_command_line_meets_faults(rt: HostRuntime) -> Result<(), Fail> {
    let alloc = rt.alloc();
    let none = || Vec::new(alloc);
    let (status, wrote) = faulty(&rt, alloc, "m.toml", none(), vec![in alloc; 2]?)?;
    assert_eq!(rt; status.number(), 5);
    assert_eq!(rt; wrote.as_slice(), b"teams repo".as_slice());
    let (status, wrote) = faulty(&rt, alloc, "m.toml", vec![in alloc; 1]?, none())?;
    assert_eq!(rt; status.number(), 4);
    assert_eq!(rt; wrote.len(), 0);
    let (status, wrote) = faulty(&rt, alloc, "other.toml", none(), none())?;
    assert_eq!(rt; status.number(), 8);
    assert_eq!(rt; wrote.len(), 0);
    Ok(())
}
