//! The end: all seats are joined into the scribe's, which is then the only one, and the rows of the
//! published places are read. They are sound, and what each seat knew is true of them.
ghost use Rattle.std.specs.Prelude.{◌≡◌, ◌≤◌, ◌<◌, ◌*◌, ◌+◌, [], length, All, vec_capacity};
ghost use Rattle.std.specs.Mem.Slots.{slots_items, slots_len, IsFull};
ghost use Rattle.seq_theory.specs.Rows.{IsSound};
ghost use Rattle.seq_core.specs.RowsOf.{rows_of};
ghost use Rattle.seq_words.specs.Layout.{row_held};
ghost use Rattle.seq_words.specs.Knowledge.{problem_in, Covers};
ghost use Rattle.seq_words.specs.Plays.{learnt, Agree};
ghost use Rattle.seq_words.specs.Seats.{IsOf, sees};
ghost use Rattle.seq_words.specs.Closing.{IsCore, AreOf};

use crate::plays::{Settle, Share};
use crate::words::{Scribe, Seat, Words};
use seq_inst::{Group, Row};
use std::alloc::Global;
use std::marker::Model;
use std::snapshot::Snapshot;

/// The rows of the published places in order, and which words were closed. `close` alone makes one.
#[derive(Drop)]
pub struct Closed {
    rows: Vec<Row>,
    of: Snapshot<Words>,
}

impl Model for Closed {
    ghost use Rattle.seq_words.specs.Closing.{Ending};

    ghost Value = { Ending };

    ghost view = { λ e. record { words = e.of.value; rows = e.rows.items } };
}

impl Closed {
    /// The rows, by place.
    pub fn rows(&self) -> &[Row]
        ensures { result.now ≡ self.now.rows }
    {
        self.rows.as_slice()
    }

    /// The rows, by place.
    pub fn into_rows(self) -> Vec<Row>
        ensures { result.items ≡ self.rows }
    {
        let Closed { rows, of: _ } = self;
        rows
    }
}

/// The scribe then knows what the seat knew, beside what it knew.
fn absorb(words: &Words, scribe: &mut Scribe, seat: Seat)
    requires scribe { IsOf words.now scribe.old }
    requires seat { IsOf words.now seat }
    ensures learns { scribe.new ≡ sees scribe.old (learnt scribe.old.view seat.view) }
    ensures agree { Agree scribe.old.view.known seat.view.known }
{
    let Seat { seat, number: _ } = seat;
    words
        .table
        .shared
        .join_seat::<Share>(&mut scribe.seat, seat);
    words.table.shared.load::<Settle>(&mut scribe.seat, 0);
}

/// The scribe then knows what all seats knew.
fn gather(words: &Words, mut scribe: Scribe, mut seats: Vec<Seat>) -> Scribe
    requires scribe { IsOf words.now scribe }
    requires seats { All (λ s. IsOf words.now s) seats.items }
    ensures of { IsOf words.now result }
    ensures scribe { Covers result.view scribe.view }
    ensures seats { All (λ s. Covers result.view s.view) seats.items }
{
    while let Some(seat) = seats.pop() {
        absorb(words, &mut scribe, seat);
    }
    scribe
}

/// The row of a place.
fn row_in(closed: &atomic_table::Closed<(), Global>, limit: u32, place: u32) -> Row
    requires words { (slots_len closed.now.words ≡ 11 * limit + 2) × IsFull closed.now.words × (limit ≤ 32768) }
    requires place { place < limit }
    ensures { result ≡ row_held (slots_items closed.now.words) place }
{
    let at = 11 * place as usize + 2;
    let group = [
        closed.word(at),
        closed.word(at + 1),
        closed.word(at + 2),
        closed.word(at + 3),
        closed.word(at + 4),
        closed.word(at + 5),
        closed.word(at + 6),
        closed.word(at + 7),
    ];
    Row {
        group: Group(group),
        low: closed.word(at + 9),
        up: closed.word(at + 10),
    }
}

/// The rows of the published places, which are the first ones.
fn rows_in(closed: &atomic_table::Closed<(), Global>, limit: u32, mut into: Vec<Row>) -> Vec<Row>
    requires words { (slots_len closed.now.words ≡ 11 * limit + 2) × IsFull closed.now.words × (limit ≤ 32768) }
    requires into { (into.items ≡ []) × (limit ≤ vec_capacity into) }
    ensures { IsCore (slots_items closed.now.words) limit result.items }
{
    for place in 0..limit {
        if closed.word(11 * place as usize + 10) != 1 {
            return into;
        }
        into.push_reserved(row_in(closed, limit, place));
    }
    into
}

/// Ends the words, and gives the rows of the published places in order, in the room of `into`.
pub fn close(words: Words, scribe: Scribe, seats: Vec<Seat>, into: Vec<Row>) -> Closed
    requires scribe { IsOf words scribe }
    requires seats { All (λ s. IsOf words s) seats.items }
    requires into { (into.items ≡ []) × (words.limit ≤ vec_capacity into) }
    ensures of { result.words ≡ words }
    ensures sound { IsSound (problem_in words.told) words.limit (rows_of result.rows) }
    ensures scribe { AreOf scribe.view result.rows }
    ensures seats { All (λ s. AreOf s.view result.rows) seats.items }
{
    let of = Snapshot::of(&words);
    let all = gather(&words, scribe, seats);
    let Words { table, limit } = words;
    let Scribe { seat, places: _ } = all;
    let closed = table.close_with(seat);
    let rows = rows_in(&closed, limit, into);
    closed.free();
    Closed { rows, of }
}
