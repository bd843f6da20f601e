//! What no clause can say: what the system's files and writers do behind the traits.

use super::ending::line_of;
use super::file_shelf::FileShelf;
use super::out_sink::OutSink;
use super::words::{WordsFault, words};
use sig_edge::{PutFault, Shelf, ShelfFault, put_all};
use std::env::{Env, FillError};
use std::test::Fail;
use std::{fs, process};

/// A command line of a program whose own name isn't UTF-8, with one word.
#[derive(Drop)]
struct OneWord<'a> {
    word: &'a [u8],
}

impl Env for OneWord<'_> {
    fn arg(&self, i: usize, buf: &mut [u8]) -> Result<usize, FillError> {
        let word = match i {
            0 => b"\xff".as_slice(),
            1 => self.word,
            _ => return Err(FillError::NotPresent),
        };
        if word.len() > buf.len() {
            return Err(FillError::TooLong);
        }
        buf[..word.len()].copy_from_slice(word);
        Ok(word.len())
    }

    fn var(&self, _name: &str, _buf: &mut [u8]) -> Result<usize, FillError> {
        Err(FillError::NotPresent)
    }

    fn var_at(&self, _i: usize, _buf: &mut [u8]) -> Result<usize, FillError> {
        Err(FillError::NotPresent)
    }
}

#[test]
fn reads_a_file_of_the_system(rt: HostRuntime) -> Result<(), Fail> {
    let path = format!(in rt.alloc(); "/tmp/teams-shelf-{}", process::id(rt.process()))?;
    fs::write(&rt, path.as_str(), "version = 1\n")?;
    let through = format!(in rt.alloc(); "{path}/model.toml")?;
    let mut shelf = FileShelf::new(&rt, rt.alloc(), through.len())?;
    let mut into = [0u8; 8];
    let start = shelf.read_at(path.as_str(), 0, &mut into);
    let is_start = into.as_slice() == b"version ".as_slice();
    let rest = shelf.read_at(path.as_str(), 8, &mut into);
    let end = shelf.read_at(path.as_str(), 12, &mut into);
    let through_a_file = shelf.read_at(through.as_str(), 0, &mut into);
    fs::remove_file(&rt, path.as_str())?;
    let gone = shelf.read_at(path.as_str(), 0, &mut into);
    let folder = shelf.read_at("/", 0, &mut into);
    assert_eq!(rt; start, Ok(8));
    assert!(rt; is_start);
    assert_eq!(rt; rest, Ok(4));
    assert_eq!(rt; end, Ok(0));
    assert_eq!(rt; through_a_file, Err(ShelfFault::Failed));
    assert_eq!(rt; gone, Err(ShelfFault::Missing));
    assert_eq!(rt; folder, Err(ShelfFault::Failed));
    Ok(())
}

#[test]
fn reads_one_version_of_a_file(rt: HostRuntime) -> Result<(), Fail> {
    let path = format!(in rt.alloc(); "/tmp/teams-shelf-old-{}", process::id(rt.process()))?;
    let other = format!(in rt.alloc(); "{path}-new")?;
    fs::write(&rt, path.as_str(), "version = 1\n")?;
    fs::write(&rt, other.as_str(), "VERSION = 22\n")?;
    let mut shelf = FileShelf::new(&rt, rt.alloc(), path.len())?;
    let mut into = [0u8; 8];
    let start = shelf.read_at(path.as_str(), 0, &mut into);
    fs::rename(&rt, other.as_str(), path.as_str())?;
    let rest = shelf.read_at(path.as_str(), 8, &mut into);
    let is_old = &into[..4] == b"= 1\n".as_slice();
    let again = shelf.read_at(path.as_str(), 0, &mut into);
    let is_new = into.as_slice() == b"VERSION ".as_slice();
    let skipped = shelf.read_at(path.as_str(), 10, &mut into);
    let is_skipped = &into[..3] == b"22\n".as_slice();
    fs::remove_file(&rt, path.as_str())?;
    assert_eq!(rt; start, Ok(8));
    assert_eq!(rt; rest, Ok(4));
    assert!(rt; is_old);
    assert_eq!(rt; again, Ok(8));
    assert!(rt; is_new);
    assert_eq!(rt; skipped, Ok(3));
    assert!(rt; is_skipped);
    Ok(())
}

#[test]
fn a_writer_that_is_full_is_a_fault(rt: HostRuntime) -> Result<(), Fail> {
    let mut room = [0u8; 4];
    let mut sink = OutSink::new(room.as_mut_slice());
    let sent = match put_all(&mut sink, b"123456") {
        Ok(()) => None,
        Err(PutFault::Failed { sent }) => Some(sent),
    };
    assert_eq!(rt; sent, Some(4));
    Ok(())
}

#[test]
fn each_fault_has_its_line(rt: HostRuntime) -> Result<(), Fail> {
    assert_eq!(rt; line_of(0), None);
    assert_eq!(rt; line_of(2), Some("teams: usage"));
    assert_eq!(rt; line_of(4), Some("teams: read fault"));
    assert_eq!(rt; line_of(5), Some("teams: write fault"));
    assert_eq!(rt; line_of(6), Some("teams: no memory"));
    assert_eq!(rt; line_of(8), Some("teams: no such file"));
    assert_eq!(rt; line_of(9), Some("teams: file too long"));
    Ok(())
}

#[test]
fn a_word_that_is_no_text_is_refused(rt: HostRuntime) -> Result<(), Fail> {
    let alloc = rt.alloc();
    let long = vec![in alloc; b'x'; 1000]?;
    for word in [b"solve".as_slice(), b"".as_slice(), long.as_slice()] {
        match words(&OneWord { word }, alloc) {
            Ok(taken) => {
                assert_eq!(rt; taken.len(), 1);
                assert!(rt; taken[0].as_str().as_bytes() == word);
            }
            Err(_) => return Err(Fail::from("no words")),
        }
    }
    match words(&OneWord { word: b"\xc3" }, alloc) {
        Ok(_) => Err(Fail::from("no fault")),
        Err(fault) => {
            assert_eq!(rt; fault, WordsFault::NotText);
            Ok(())
        }
    }
}
