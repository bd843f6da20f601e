//! A shelf in memory, for tests and for laws about whole runs: it tells its files, gives few bytes at a call where it is told to,
//! and fails at just the calls that it was told to fail at. The newest file stands first, so that a look-up finds a file that was
//! added in place of an older one.

ghost use Rattle.std.specs.Prelude.{◌≡◌, ◌↔◌, ◌≤◌, ◌+◌, ◌<◌, ℕ, List, Some, option_map, length, drop, min, IsOk, IfOk, OnOk, OnErr, IsErrOf};
ghost use Rattle.sig_edge.specs.Shelf.{IsPart, ReadsAt, HasShelfCause};
ghost use Rattle.sig_edge.specs.Files.{found};

use crate::shelf::{Shelf, ShelfFault};
use std::alloc::{AllocError, Global};

/// A file in memory.
#[derive(Debug, Drop)]
pub struct File {
    name: String,
    bytes: Vec<u8>,
}

/// Files in memory. A read gives at most `most` bytes, and one whose number, from 1, is in `fail` answers a fault.
#[derive(Debug, Drop)]
pub struct MemShelf {
    files: Vec<File>,
    most: usize,
    fail: Vec<u64>,
    calls: u64,
    faults: u64,
    misses: u64,
    ghost gives_some: { 1 ≤ most },
}

/// The bytes of the first file with the name.
fn find<'a>(files: &'a [File], name: &str) -> Option<&'a [u8]>
    ensures { option_map (λ bytes. bytes.now) result ≡ found files.now name.now }
{
    for file in files {
        if file.name.as_str() == name {
            return Some(file.bytes.as_slice());
        }
    }
    None
}

/// Copies the file's bytes from `at` on, as many as there are and fit, and at most `most`.
fn copy_part(bytes: &[u8], at: u64, most: usize, into: &mut [u8]) -> usize
    requires { 1 ≤ most }
    ensures part { IsPart bytes.now at into.new result }
    ensures bound { result ≤ length into.new }
    ensures count { result ≡ min most (min (length into.new) (length (drop at bytes.now))) }
{
    if at >= bytes.len() as u64 {
        return 0;
    }
    let rest = &bytes[at as usize..];
    let n = rest.len().min(into.len()).min(most);
    into[..n].copy_from_slice(&rest[..n]);
    n
}

impl MemShelf {
    ghost use Rattle.sig_edge.specs.MemShelf.{content_of, most_given, IsNewShelf, KeepsCounts, AddsFile, GivesPieces};

    /// A shelf that holds nothing, and gives as many bytes at a read as fit. It takes no memory. `fail` has the numbers of the
    /// reads, from 1, that are to fail.
    pub fn new(alloc: Global, fail: Vec<u64>) -> MemShelf
        ensures { IsNewShelf result fail.items }
    {
        MemShelf {
            files: Vec::new(alloc),
            most: usize::MAX,
            fail,
            calls: 0,
            faults: 0,
            misses: 0,
        }
    }

    /// Holds the name with these bytes, in place of what it had. Without memory it holds what it held.
    pub fn add(&mut self, name: &str, bytes: &[u8]) -> Result<(), AllocError>
        ensures ok { OnOk result (AddsFile self.old self.new name.now bytes.now) }
        ensures err { OnErr result ((name : List ℕ) → content_of self.new name ≡ content_of self.old name) }
        ensures counts { KeepsCounts self.old self.new }
        ensures most { most_given self.new ≡ most_given self.old }
    {
        let alloc = *self.files.allocator();
        let file = File {
            name: String::from_str(alloc, name)?,
            bytes: Vec::from_slice(alloc, bytes)?,
        };
        self.files.insert(0, file)?;
        Ok(())
    }

    /// Each later read gives at most `most` bytes, as a pipe does. It takes no memory.
    pub fn pieces(&mut self, most: usize)
        requires { 1 ≤ most }
        ensures { GivesPieces self.old self.new most }
    {
        self.most = most;
    }
}

impl Shelf for MemShelf {
    ghost use Rattle.sig_edge.specs.MemShelf.{content_of, shelf_faults, shelf_misses, most_given, FailsNext, FillsFrom, read_once, failed_once, missed_once};

    ghost holds = { λ shelf. Some (content_of shelf) };

    ghost faults = { λ shelf. shelf_faults shelf };

    ghost misses = { λ shelf. shelf_misses shelf };

    fn read_at(&mut self, name: &str, at: u64, into: &mut [u8]) -> Result<usize, ShelfFault>
        ensures bound { IfOk result (λ n. n ≤ length into.new) }
        ensures bytes { ReadsAt (Some (content_of self.old)) name.now at into.new result }
        ensures same { Some (content_of self.new) ≡ Some (content_of self.old) }
        ensures cause { HasShelfCause (shelf_faults self.old) (shelf_faults self.new) (shelf_misses self.old) (shelf_misses self.new) result }

        // It gives what there is, as far as there is room, and no more than it may at a call.
        ensures count { IfOk result (λ n. FillsFrom (content_of self.old name.now) (most_given self.old) at into.new n) }

        // It fails at just the calls that are to fail, and then changes nothing but the counts.
        ensures fails { (result ≡ Err ShelfFault.Failed) ↔ FailsNext self.old }
        ensures failed { IsErrOf result ShelfFault.Failed → (self.new ≡ failed_once self.old) × (into.new ≡ into.old) }
        ensures missed { IsErrOf result ShelfFault.Missing → (self.new ≡ missed_once self.old) × (into.new ≡ into.old) }
        ensures read { IsOk result → self.new ≡ read_once self.old }
    {
        self.calls = self.calls.saturating_add(1);
        if self.fail.contains(&self.calls) {
            self.faults = self.faults.saturating_add(1);
            return Err(ShelfFault::Failed);
        }
        match find(self.files.as_slice(), name) {
            Some(bytes) => Ok(copy_part(bytes, at, self.most, into)),
            None => {
                self.misses = self.misses.saturating_add(1);
                Err(ShelfFault::Missing)
            }
        }
    }
}
