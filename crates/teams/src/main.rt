//! The program: it makes the shelf of the file system, the sink of standard output and a gate that lets every worker
//! pass, calls `run`, and ends with the status's number.
//!
//! What a file or standard output holds can't be proved, so the parts here are few and small, and everything that can be said of
//! files and texts is said of the traits that they stand behind.
#![tactic(auto)]

mod ending;
mod file_shelf;
mod out_sink;
#[cfg(test)]
mod tests;
mod words;

use ending::line_of;
use file_shelf::FileShelf;
use out_sink::OutSink;
use sig_edge::FreeGate;
use std::alloc::Global;
use std::env::Env;
use std::io::Write;
use std::process::ExitCode;
use std::rt::Files;
use std::sync::Wait;
use std::thread::Threads;
use teams_run::{Status, run};
use words::{WordsFault, words};

/// Does what the command line asks, and says how it ended.
fn status_of<R: Files + Env + Threads + Wait + Sync, W: Write + Drop>(
    rt: &R,
    alloc: Global,
    out: W,
) -> Status {
    let words = match words(rt, alloc) {
        Ok(words) => words,
        Err(WordsFault::NotText) => return Status::Usage,
        Err(WordsFault::OutOfMemory) => return Status::NoMemory,
    };
    let longest = words.iter().map(|word| word.len()).max().unwrap_or(0);
    let Ok(mut shelf) = FileShelf::new(rt, alloc, longest) else {
        return Status::NoMemory;
    };
    let mut sink = OutSink::new(out);
    run(
        rt,
        alloc,
        words.as_slice(),
        &mut shelf,
        &mut sink,
        &FreeGate,
    )
}

fn main(rt: HostRuntime) -> ExitCode {
    let status = status_of(&rt, rt.alloc(), rt.stdout()).number();
    if let Some(line) = line_of(status) {
        // Where standard error takes nothing, the status still tells it.
        let _ = eprintln!(rt; "{line}");
    }
    ExitCode::from(status)
}
