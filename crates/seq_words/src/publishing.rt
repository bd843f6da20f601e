//! Publishing a group: its eight words of bits are stored one by one, and then the state word, so that
//! no seat reads a group that is half written.
ghost use Rattle.std.specs.Prelude.{◌≡◌, ◌≢◌, ◌≤◌, ◌<◌, ◌*◌, ◌+◌, ℕ, length, slice_index};
ghost use Rattle.seq_words.specs.Layout.{bits_at, state_at};
ghost use Rattle.seq_words.specs.Knowledge.{HasGroup, Covers, known, unknown};
ghost use Rattle.seq_words.specs.Plays.{begins, writes, publishes, published};
ghost use Rattle.seq_words.specs.Seats.{IsOf, HasPlaces, MayPublish, sees};
ghost use Rattle.seq_words.specs.declared.view.Role.TheVariants.{Scribe as Scribes};

use crate::layout::{bits_word, state_word};
use crate::plays::{Begin, Drafting, Publish, Write};
use crate::rule::Bounds;
use crate::view::{Terms, View};
use crate::words::{Scribe, Words};
use atomic_table::{Seat, Shared};
use seq_inst::{Group, group_stands};
use std::marker::Brand;

/// Stores the first word of bits.
fn begin<D: Drafting>(
    table: &Shared<(), View, Terms, Bounds>,
    seat: &mut Seat<(), View>,
    place: u32,
    group: &Group,
)
    requires group { group.now.0 ≡ D.group }
    requires table { (seat.old.table_id ≡ table.now.table_id) × (bits_at place 0 < table.now.table_id.words) }
    requires may { MayPublish seat.old.me.0 place group.now × (seat.old.me.0.stored ≡ 0) }
    ensures { (seat.new.table_id ≡ seat.old.table_id) × (seat.new.me ≡ (begins group.now.0 seat.old.me.0, seat.old.me.1)) }
{
    group_stands(group);
    table.store::<Begin<D>>(seat, bits_word(place, 0), group.0[0]);
}

/// Stores the next word of bits.
fn write(
    table: &Shared<(), View, Terms, Bounds>,
    seat: &mut Seat<(), View>,
    place: u32,
    part: usize,
    bits: u64,
)
    requires table { (seat.old.table_id ≡ table.now.table_id) × (bits_at place part < table.now.table_id.words) }
    requires role { seat.old.me.0.role ≡ Scribes place }
    requires part { (0 < part) × (part < 8) × (seat.old.me.0.stored ≡ part) }
    requires bits { bits ≡ slice_index seat.old.me.0.draft part }
    ensures { (seat.new.table_id ≡ seat.old.table_id) × (seat.new.me ≡ (writes seat.old.me.0, seat.old.me.1)) }
{
    table.store::<Write>(seat, bits_word(place, part), bits);
}

/// Stores the state word.
fn show(table: &Shared<(), View, Terms, Bounds>, seat: &mut Seat<(), View>, place: u32)
    requires table { (seat.old.table_id ≡ table.now.table_id) × (state_at place < table.now.table_id.words) }
    requires role { seat.old.me.0.role ≡ Scribes place }
    requires stored { seat.old.me.0.stored ≡ 8 }
    ensures fresh { known seat.old.me.0 place ≡ unknown }
    ensures learns { (seat.new.table_id ≡ seat.old.table_id) × (seat.new.me ≡ (publishes place seat.old.me.0, seat.old.me.1)) }
{
    table.store::<Publish>(seat, state_word(place), 1);
}

/// Stores all words of a new place.
fn write_group(
    table: &Shared<(), View, Terms, Bounds>,
    seat: &mut Seat<(), View>,
    place: u32,
    group: &Group,
)
    requires table { (seat.old.table_id ≡ table.now.table_id) × (state_at place < table.now.table_id.words) }
    requires may { MayPublish seat.old.me.0 place group.now × (seat.old.me.0.stored ≡ 0) }
    ensures fresh { known seat.old.me.0 place ≡ unknown }
    ensures learns { (seat.new.table_id ≡ seat.old.table_id) × (seat.new.me ≡ (published place group.now.0 seat.old.me.0, seat.old.me.1)) }
{
    begin::<Brand>(table, seat, place, group);
    for part in 1..8 {
        write(table, seat, place, part, group.0[part]);
    }
    show(table, seat, place);
}

/// Publishes a group at the next place. The scribe then knows this place with this group, beside all
/// that it knew, and no other place. Nine stores.
pub fn publish(words: &Words, scribe: &mut Scribe, place: u32, group: &Group)
    requires scribe { IsOf words.now scribe.old }
    requires may { MayPublish scribe.old.view place group.now }
    ensures of { IsOf words.now scribe.new }
    ensures count { HasPlaces (place + 1) scribe.new.view }
    ensures knows { HasGroup place group.now.0 scribe.new.view }
    ensures covers { Covers scribe.new.view scribe.old.view }
    ensures others { (other : ℕ) → other ≢ place → known scribe.new.view other ≡ known scribe.old.view other }
    ensures learns { scribe.new ≡ sees scribe.old (published place group.now.0 scribe.old.view) }
{
    group_stands(group);
    write_group(&words.table.shared, &mut scribe.seat, place, group);
    scribe.places = place + 1;
}
