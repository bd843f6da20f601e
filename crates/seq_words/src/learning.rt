//! Learning: a copy of what the scribe knows is joined into a worker's seat. This is the only way in
//! which a worker comes to know a place that it hasn't looked at.
ghost use Rattle.std.specs.Prelude.{◌≡◌};
ghost use Rattle.seq_words.specs.Knowledge.{Covers, AreAlone};
ghost use Rattle.seq_words.specs.Plays.{learnt, Agree};
ghost use Rattle.seq_words.specs.Seats.{IsOf, sees};

use crate::plays::{Settle, Share};
use crate::words::{Scribe, Seat, Words};

/// The seat then knows what the scribe knows, beside what it knew.
fn learn_to(words: &Words, scribe: &mut Scribe, seat: &mut Seat)
    requires scribe { IsOf words.now scribe.old }
    requires seat { IsOf words.now seat.old }
    ensures same { scribe.new ≡ scribe.old }
    ensures learns { seat.new ≡ sees seat.old (learnt seat.old.view scribe.old.view) }
    ensures agree { Agree seat.old.view.known scribe.old.view.known }
    ensures alone { AreAlone seat.new.view }
{
    let copy = words.table.shared.split_seat::<Share>(&mut scribe.seat);
    words.table.shared.join_seat::<Share>(&mut seat.seat, copy);
    words.table.shared.load::<Settle>(&mut seat.seat, 0);
}

/// The seat that comes back knows each place that the scribe published, with its group, beside what it
/// knew: of each place the larger low and the lesser up that either had seen. It knows no two places with the
/// same group.
pub fn learn(words: &Words, scribe: &mut Scribe, mut seat: Seat) -> Seat
    requires scribe { IsOf words.now scribe.old }
    requires seat { IsOf words.now seat }
    ensures same { scribe.new ≡ scribe.old }
    ensures of { IsOf words.now result }
    ensures covers { Covers result.view seat.view }
    ensures told { Covers result.view scribe.old.view }
    ensures learns { result ≡ sees seat (learnt seat.view scribe.old.view) }
    ensures alone { AreAlone result.view }
{
    learn_to(words, scribe, &mut seat);
    seat
}

/// The same, of a seat that stays where it is.
pub fn learn_at(words: &Words, scribe: &mut Scribe, seat: &mut Seat)
    requires scribe { IsOf words.now scribe.old }
    requires seat { IsOf words.now seat.old }
    ensures same { scribe.new ≡ scribe.old }
    ensures of { IsOf words.now seat.new }
    ensures covers { Covers seat.new.view seat.old.view }
    ensures told { Covers seat.new.view scribe.old.view }
    ensures alone { AreAlone seat.new.view }
{
    learn_to(words, scribe, seat);
}
