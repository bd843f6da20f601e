//! The file system as a shelf. It tells nothing of what it holds, since another program may change a file at any time.
//!
//! A file stays open from its first read to its end, so that one which is replaced in between is read whole, in one version. A read
//! from the start opens the file anew. A file that is read from its start to its end, piece after piece, need not be one that can
//! be read from a place on: a pipe serves. Only a name that the system doesn't find is a miss. A folder, a file that may not be
//! read, and a path that goes through a file are read faults.
//!
//! The memory for the name of the file that is open is taken when the shelf is made, so that want of memory is no fault of a read.

ghost use Rattle.std.specs.Prelude.{None, ◌≡◌, ◌≤◌, length, IfOk};

use sig_edge::{Shelf, ShelfFault};
use std::alloc::{AllocError, Global};
use std::io::{Read, Seek, SeekFrom};
use std::rt::Files;
use std::{fs, io};

/// A file that is open, and the place of its next byte.
#[derive(Drop)]
struct Reading<F: Drop> {
    file: F,
    at: u64,
}

/// The files of the system. `name` is that of the file that is open.
#[derive(Drop)]
pub struct FileShelf<'a, R: Files> {
    rt: &'a R,
    name: String,
    open: Option<Reading<R::File>>,
    faults: u64,
    misses: u64,
}

impl<'a, R: Files> FileShelf<'a, R> {
    /// A shelf that had no fault and no miss. It takes memory for a name of `longest` bytes, and reading a file whose name is no
    /// longer takes none.
    pub fn new(rt: &'a R, alloc: Global, longest: usize) -> Result<FileShelf<'a, R>, AllocError>
        ensures faults { IfOk result (λ shelf. shelf.faults ≡ 0) }
        ensures misses { IfOk result (λ shelf. shelf.misses ≡ 0) }
    {
        Ok(FileShelf {
            rt,
            name: String::with_capacity(alloc, longest)?,
            open: None,
            faults: 0,
            misses: 0,
        })
    }

    /// Reads once from byte `at` of the file on. What was open goes on where it stands, if it is what is asked for.
    fn read(&mut self, name: &str, at: u64, into: &mut [u8]) -> io::Result<usize>
        ensures bound { IfOk result (λ n. n ≤ length into.new) }
        ensures faults { self.new.faults ≡ self.old.faults }
        ensures misses { self.new.misses ≡ self.old.misses }
    {
        let mut reading = match self.open.take() {
            Some(open) if open.at == at && at > 0 && self.name.as_str() == name => open,
            _ => self.opened(name, at)?,
        };
        let n = reading.file.read(into)?;
        if n > 0 {
            reading.at = at.saturating_add(n as u64);
            self.open = Some(reading);
        }
        Ok(n)
    }

    /// The file, opened anew, with byte `at` as its next.
    fn opened(&mut self, name: &str, at: u64) -> io::Result<Reading<R::File>>
        ensures faults { self.new.faults ≡ self.old.faults }
        ensures misses { self.new.misses ≡ self.old.misses }
    {
        let mut file = fs::open(self.rt, name)?;
        if at > 0 {
            file.seek(SeekFrom::Start(at))?;
        }
        self.name.clear();
        self.name.push_str(name)?;
        Ok(Reading { file, at })
    }
}

impl<'a, R: Files> Shelf for FileShelf<'a, R> {
    ghost holds = { λ _. None };

    ghost faults = { λ shelf. shelf.faults };

    ghost misses = { λ shelf. shelf.misses };

    fn read_at(&mut self, name: &str, at: u64, into: &mut [u8]) -> Result<usize, ShelfFault> {
        match self.read(name, at, into) {
            Ok(n) => Ok(n),
            Err(e) if e.kind() == io::ErrorKind::NotFound => {
                self.misses = self.misses.saturating_add(1);
                Err(ShelfFault::Missing)
            }
            Err(_) => {
                self.faults = self.faults.saturating_add(1);
                Err(ShelfFault::Failed)
            }
        }
    }
}
