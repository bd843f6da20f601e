//! Raising a low and lowering an up, by one atomic step each. The seat's own view gives the licence: the
//! number is at most, or at least, what the rows that it knows allow. A worker that raises from an old
//! view does no harm, as lows grow and ups fall wherever groups are added.
ghost use Rattle.std.specs.Prelude.{◌≡◌, ◌≤◌};
ghost use Rattle.seq_words.specs.Knowledge.{MayRaise, MayCap, known, low_seen, up_seen, IsLow, IsUp, Covers};
ghost use Rattle.seq_words.specs.Plays.{hears_low, hears_up};
ghost use Rattle.seq_words.specs.Seats.{IsOf, sees};

use crate::layout::{low_word, up_word};
use crate::plays::{Cap, Raise};
use crate::words::{Seat, Words};

/// Raises the low of a place to this number, if it is lower, and answers the low word after the step.
pub fn raise(words: &Words, seat: &mut Seat, place: u32, to: u64) -> u64
    requires seat { IsOf words.now seat.old }
    requires may { MayRaise seat.old.view place to }
    ensures reached { to ≤ result }
    ensures kept { low_seen place seat.old.view ≤ result }
    ensures right { IsLow seat.old.view.told (known seat.old.view place).bits result }
    ensures of { IsOf words.now seat.new }
    ensures covers { Covers seat.new.view seat.old.view }
    ensures learns { seat.new ≡ sees seat.old (hears_low place result seat.old.view) }
{
    let found = words
        .table
        .shared
        .fetch_max::<Raise>(&mut seat.seat, low_word(place), to);
    found.max(to)
}

/// Lowers the up of a place to this number, if it is higher, and answers the up word after the step.
pub fn lower_cap(words: &Words, seat: &mut Seat, place: u32, to: u64) -> u64
    requires seat { IsOf words.now seat.old }
    requires may { MayCap seat.old.view place to }
    ensures reached { result ≤ to }
    ensures kept { result ≤ up_seen place seat.old.view }
    ensures right { IsUp seat.old.view.told (known seat.old.view place).bits result }
    ensures of { IsOf words.now seat.new }
    ensures covers { Covers seat.new.view seat.old.view }
    ensures learns { seat.new ≡ sees seat.old (hears_up place result seat.old.view) }
{
    let found = words
        .table
        .shared
        .fetch_min::<Cap>(&mut seat.seat, up_word(place), to);
    found.min(to)
}
