//! Looking at a place. Its bits are read only after its state was seen as published, and they never
//! change after that. What the rule says between steps of all groups that a seat knows, that they are
//! real and that none stands twice, is told by the loads of the look itself: it costs no further step.
ghost use Rattle.std.specs.Prelude.{◌≡◌, ◌≤◌, ◌<◌, false, length, slice_index, MatchBool};
ghost use Rattle.seq_words.specs.Knowledge.{known, Covers, IsThere, HasGroup, low_seen, up_seen, IsLowAt, IsUpAt, IsRealAt, AreAlone};
ghost use Rattle.seq_words.specs.Plays.{knows_bits, hears, hears_low, hears_up, finds_free};
ghost use Rattle.seq_words.specs.Seats.{IsOf, Looked, IsSeen, IsRealSeen, ReadsBits, sees};

use crate::layout::{bits_word, low_word, state_word, up_word};
use crate::plays::{Find, SeeBits, SeeLow, SeeUp};
use crate::view::Seen;
use crate::words::{Seat, Words};
use seq_inst::Group;

/// Whether the place is published. This load tells too that the seat knows no two places with the same
/// group.
fn find(words: &Words, seat: &mut Seat, place: u32) -> bool
    requires seat { IsOf words.now seat.old }
    requires room { place < words.now.limit }
    ensures learns { MatchBool result (seat.new ≡ sees seat.old (hears place seat.old.view)) ((seat.new ≡ sees seat.old (finds_free place seat.old.view)) × ((known seat.old.view place).there ≡ false)) }
    ensures alone { AreAlone seat.new.view }
{
    let found = words
        .table
        .shared
        .load::<Find>(&mut seat.seat, state_word(place));
    found == 1
}

/// Reads a word of bits that the seat knows, or the next one.
fn look_part(words: &Words, seat: &mut Seat, place: u32, part: usize) -> u64
    requires seat { IsOf words.now seat.old }
    requires there { IsThere place seat.old.view }
    requires part { (part < 8) × (part ≤ length (known seat.old.view place).bits) }
    ensures { ReadsBits place part result seat.old seat.new }
{
    words
        .table
        .shared
        .load::<SeeBits>(&mut seat.seat, bits_word(place, part))
}

/// Reads the group of a published place.
fn look_group(words: &Words, seat: &mut Seat, place: u32) -> [u64; 8]
    requires seat { IsOf words.now seat.old }
    requires there { IsThere place seat.old.view }
    ensures of { IsOf words.now seat.new }
    ensures group { HasGroup place result seat.new.view }
    ensures learns { seat.new ≡ sees seat.old (knows_bits place result seat.old.view) }
    ensures known { length (known seat.old.view place).bits ≡ 8 → result ≡ (known seat.old.view place).bits }
{
    let mut group = [0; 8];
    for part in 0..8 {
        group[part] = look_part(words, seat, place, part);
    }
    group
}

/// Reads the low of a published place.
fn look_low(words: &Words, seat: &mut Seat, place: u32) -> u64
    requires seat { IsOf words.now seat.old }
    requires there { IsThere place seat.old.view }
    ensures kept { low_seen place seat.old.view ≤ result }
    ensures right { IsLowAt place seat.old.view result }
    ensures learns { seat.new ≡ sees seat.old (hears_low place result seat.old.view) }
{
    words
        .table
        .shared
        .load::<SeeLow>(&mut seat.seat, low_word(place))
}

/// Reads the up of a published place. This load tells too that its group is real, where the seat knows
/// it, and that the seat knows no two places with the same group.
fn look_up(words: &Words, seat: &mut Seat, place: u32) -> u64
    requires seat { IsOf words.now seat.old }
    requires there { IsThere place seat.old.view }
    ensures kept { result ≤ up_seen place seat.old.view }
    ensures right { IsUpAt place seat.old.view result }
    ensures real { IsRealAt place seat.old.view }
    ensures alone { AreAlone seat.new.view }
    ensures learns { seat.new ≡ sees seat.old (hears_up place result seat.old.view) }
{
    words
        .table
        .shared
        .load::<SeeUp>(&mut seat.seat, up_word(place))
}

/// Looks at a place. It is `Free` exactly where the state word that was loaded was 0, and never where
/// the seat knows the place. The seat then knows a published place as it is answered, and its group is
/// real; whatever is answered, the seat knows no two places with the same group. One load for a free
/// place, and eleven for another.
pub fn see(words: &Words, seat: &mut Seat, place: u32) -> Seen
    requires seat { IsOf words.now seat.old }
    requires room { place < words.now.limit }
    ensures looked { Looked place seat.old seat.new result }
    ensures seen { IsSeen place seat.new.view result }
    ensures real { IsRealSeen words.now.told result }
    ensures alone { AreAlone seat.new.view }
    ensures of { IsOf words.now seat.new }
    ensures covers { Covers seat.new.view seat.old.view }
{
    if !find(words, seat, place) {
        return Seen::Free;
    }
    let group = Group(look_group(words, seat, place));
    let low = look_low(words, seat, place);
    let up = look_up(words, seat, place);
    Seen::There { group, low, up }
}
