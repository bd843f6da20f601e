//! New words, the scribe, and a seat for each worker. This takes all the memory that the words need.
ghost use Rattle.std.specs.Prelude.{◌≡◌, ◌≤◌, ◌<◌, ◌*◌, ◌+◌, ℕ, length, slice_index, IfOk, All};
ghost use Rattle.seq_words.specs.Layout.{blank_word};
ghost use Rattle.seq_words.specs.Knowledge.{told_of};
ghost use Rattle.seq_words.specs.Rule.{opener};
ghost use Rattle.seq_words.specs.Plays.{as_worker};
ghost use Rattle.seq_words.specs.Seats.{IsOf, sees};

use crate::plays::Share;
use crate::view::Terms;
use crate::words::{Scribe, Seat, Words};
use atomic_table::Table;
use seq_inst::Instance;
use std::alloc::{AllocError, Global};
use std::snapshot::Snapshot;

/// The words, the scribe, and the seats of the workers.
#[derive(Drop)]
pub struct Made {
    pub words: Words,
    pub scribe: Scribe,
    pub seats: Vec<Seat>,
}

/// What the words hold at first.
fn blank(alloc: Global, limit: u32) -> Result<Vec<u64>, AllocError>
    requires { limit ≤ 32768 }
    ensures len { IfOk result (λ v. length v.items ≡ 11 * limit + 2) }
    ensures words { IfOk result (λ v. (k : ℕ) → k < 11 * limit + 2 → slice_index v.items k ≡ blank_word k) }
{
    let count = 11 * limit as usize + 2;
    let mut words = Vec::new(alloc);
    for k in 0..count {
        words.push(if k >= 12 && k % 11 == 1 { u64::MAX } else { 0 })?;
    }
    Ok(words)
}

/// A worker's seat that knows what the scribe knows.
fn another(words: &Words, scribe: &mut Scribe, number: u32) -> Seat
    requires { IsOf words.now scribe.old }
    ensures same { scribe.new ≡ scribe.old }
    ensures copy { result ≡ sees scribe.old (as_worker scribe.old.view) }
{
    let seat = words.table.shared.split_seat::<Share>(&mut scribe.seat);
    Seat { seat, number }
}

/// So many seats of workers.
fn deal(
    alloc: Global,
    words: &Words,
    scribe: &mut Scribe,
    count: u32,
) -> Result<Vec<Seat>, AllocError>
    requires { IsOf words.now scribe.old }
    ensures same { scribe.new ≡ scribe.old }
    ensures seats { IfOk result (λ v. All (λ s. s ≡ sees scribe.old (as_worker scribe.old.view)) v.items) }
    ensures count { IfOk result (λ v. length v.items ≡ count) }
{
    let mut seats = Vec::new(alloc);
    for i in 0..count {
        seats.push(another(words, scribe, i))?;
    }
    Ok(seats)
}

/// The words with their first seat, the scribe's.
fn first(alloc: Global, inst: &Instance, limit: u32) -> Result<(Words, Scribe), AllocError>
    requires { limit ≤ 32768 }
    ensures { IfOk result (λ m. (m.0.told ≡ told_of inst.now) × (m.0.limit ≡ limit) × (m.1 ≡ record { table = m.0.table; view = opener inst.now limit })) }
{
    let blank = blank(alloc, limit)?;
    let terms = Terms {
        inst: Snapshot::of(inst),
        limit,
    };
    let (table, seat) = Table::of_words(alloc, blank.as_slice(), &terms)?;
    Ok((Words { table, limit }, Scribe { seat, places: 0 }))
}

/// Words of this instance for so many groups, with all places free, and so many seats. The words take
/// 88 bytes for each place.
pub fn make_words(
    alloc: Global,
    inst: &Instance,
    limit: u32,
    seats: u32,
) -> Result<Made, AllocError>
    requires limit { (1 ≤ limit) × (limit ≤ 32768) }
    requires seats { (1 ≤ seats) × (seats ≤ 16) }
    ensures words { IfOk result (λ m. (m.words.told ≡ told_of inst.now) × (m.words.limit ≡ limit)) }
    ensures scribe { IfOk result (λ m. m.scribe ≡ record { table = m.words.table; view = opener inst.now limit }) }
    ensures seats { IfOk result (λ m. All (λ s. s ≡ record { table = m.words.table; view = as_worker (opener inst.now limit) }) m.seats.items) }
    ensures count { IfOk result (λ m. length m.seats.items ≡ seats) }
    ensures of { IfOk result (λ m. IsOf m.words m.scribe × All (λ s. IsOf m.words s) m.seats.items) }
{
    let (words, mut scribe) = first(alloc, inst, limit)?;
    let seats = deal(alloc, &words, &mut scribe, seats)?;
    Ok(Made {
        words,
        scribe,
        seats,
    })
}
