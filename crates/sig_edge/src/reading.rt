//! Reading a whole file from a shelf. It is read piece by piece until a read gives nothing, and never further than one byte past
//! the limit, so that a file that is too long is known as such without being read to its end.

ghost use Rattle.std.specs.Prelude.{◌≡◌, ◌≢◌, ◌++◌, take, ◌<◌, ◌≤◌, ◌+◌, ◌^◌, length, vec_len, IfOk, OnErr, IsErrOf};
ghost use Rattle.sig_edge.specs.Causes.{Rose};
ghost use Rattle.sig_edge.specs.Shelf.{ReadsAt, HoldsWhole, HoldsNone, HoldsLonger};

use crate::shelf::{Shelf, ShelfFault};
use std::alloc::Global;
use thiserror::Error;

/// Why a file wasn't fetched.
#[derive(Debug, Drop, Error)]
pub enum FetchFault {
    /// There is no file of this name.
    #[error("no such file")]
    Missing,
    /// The shelf couldn't read.
    #[error("read fault")]
    Failed,
    /// The file has more bytes than the limit.
    #[error("file too long")]
    TooLong,
    /// There is no memory for the content.
    #[error("no memory")]
    OutOfMemory,
}

/// The whole content of a file of at most `limit` bytes. It reads the file once, in pieces of up to 4,096 bytes, and once more to
/// see its end.
pub fn fetch<D: Shelf>(
    alloc: Global,
    shelf: &mut D,
    name: &str,
    limit: u64,
) -> Result<Vec<u8>, FetchFault>
    requires { limit ≤ 16777216 }
    ensures whole { IfOk result (λ content. HoldsWhole (D.holds shelf.old) name.now content.items) }
    ensures short { IfOk result (λ content. vec_len content ≤ limit) }

    // Each fault but the want of memory has its cause.
    ensures missing { IsErrOf result FetchFault.Missing → Rose (D.misses shelf.old) (D.misses shelf.new) }
    ensures missing_held { IsErrOf result FetchFault.Missing → HoldsNone (D.holds shelf.old) name.now }
    ensures failed { IsErrOf result FetchFault.Failed → Rose (D.faults shelf.old) (D.faults shelf.new) }
    ensures too_long { IsErrOf result FetchFault.TooLong → HoldsLonger (D.holds shelf.old) name.now limit }

    // The files stay, and no count falls.
    ensures same { D.holds shelf.new ≡ D.holds shelf.old }
    ensures faults_later { D.faults shelf.old ≤ D.faults shelf.new }
    ensures misses_later { D.misses shelf.old ≤ D.misses shelf.new }
{
    let mut content = Vec::new(alloc);
    let mut buffer = [0u8; 4096];
    while content.len() as u64 <= limit {
        let room = (limit + 1 - content.len() as u64).min(4096) as usize;
        if read_more(shelf, name, &mut buffer[..room], &mut content)? == 0 {
            return Ok(content);
        }
    }
    Err(FetchFault::TooLong)
}

/// Reads once from the content's end on, into `piece`, and appends what came.
fn read_more<D: Shelf>(
    shelf: &mut D,
    name: &str,
    piece: &mut [u8],
    content: &mut Vec<u8>,
) -> Result<usize, FetchFault>
    ensures read { IfOk result (λ n. ReadsAt (D.holds shelf.old) name.now (length content.old.items) piece.new (Ok n)) }
    ensures appended { IfOk result (λ n. content.new.items ≡ content.old.items ++ take n piece.new) }
    ensures within { IfOk result (λ n. n ≤ length piece.new) }
    ensures longer { IfOk result (λ n. vec_len content.new ≡ vec_len content.old + n) }
    ensures missing { IsErrOf result FetchFault.Missing → Rose (D.misses shelf.old) (D.misses shelf.new) }
    ensures missing_held { IsErrOf result FetchFault.Missing → HoldsNone (D.holds shelf.old) name.now }
    ensures failed { IsErrOf result FetchFault.Failed → Rose (D.faults shelf.old) (D.faults shelf.new) }
    ensures never_too_long { result ≢ Err FetchFault.TooLong }
    ensures same { D.holds shelf.new ≡ D.holds shelf.old }
    ensures faults_later { D.faults shelf.old ≤ D.faults shelf.new }
    ensures misses_later { D.misses shelf.old ≤ D.misses shelf.new }
{
    match shelf.read_at(name, content.len() as u64, piece) {
        Ok(n) => match content.extend_from_slice(&piece[..n]) {
            Ok(()) => Ok(n),
            Err(_) => Err(FetchFault::OutOfMemory),
        },
        Err(ShelfFault::Missing) => Err(FetchFault::Missing),
        Err(ShelfFault::Failed) => Err(FetchFault::Failed),
    }
}
