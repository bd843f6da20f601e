//! The words and their seats, as contracts see them: which words these are, and what each seat knows.
ghost use Rattle.std.specs.Prelude.{◌≡◌};
ghost use Rattle.seq_words.specs.Seats.{HasPlaces};

use crate::rule::Bounds;
use crate::view::{Terms, View};
use std::alloc::Global;
use std::marker::Model;

/// The groups that have a place, with their bounds. All calls take it by a shared reference.
#[derive(Drop)]
pub struct Words {
    pub(crate) table: atomic_table::Table<(), View, Terms, Bounds, Global>,
    pub(crate) limit: u32,
}

impl Model for Words {
    ghost use Rattle.std.specs.Prelude.{◌≡◌, ◌*◌, ◌+◌, ◌≤◌};
    ghost use Rattle.seq_words.specs.Knowledge.{told_of};
    ghost use Rattle.seq_words.specs.Seats.{Wording};

    ghost Value = { Wording };

    ghost view = { λ w. record { table = w.table.shared.table_id; told = told_of w.table.shared.key.inst.value; limit = w.limit } };

    ghost invariant = { λ w. (w.table.shared.table_id.words ≡ 11 * w.limit + 2) × (w.table.shared.key.limit ≡ w.limit) × (w.table.shared.table_id.slots ≡ 0) × (w.limit ≤ 32768) };
}

/// What one worker knows of the words.
#[derive(Drop)]
pub struct Seat {
    pub(crate) seat: atomic_table::Seat<(), View>,
    /// The worker's number. A seat by itself has no bytes, and values without bytes can't stand in a
    /// list.
    pub(crate) number: u32,
}

impl Model for Seat {
    ghost use Rattle.std.specs.Prelude.{◌≡◌, []};
    ghost use Rattle.seq_words.specs.declared.view.Role.TheVariants.{Worker};
    ghost use Rattle.seq_words.specs.Seats.{Sitting};

    ghost Value = { Sitting };

    ghost view = { λ s. record { table = s.seat.table_id; view = s.seat.me.0 } };

    ghost invariant = { λ s. (s.seat.me.1 ≡ []) × (s.seat.me.0.role ≡ Worker) };
}

impl Words {
    /// For how many groups there are words.
    pub fn limit(&self) -> u32
        ensures { result ≡ self.now.limit }
    {
        self.limit
    }
}

/// The one seat that publishes groups. Between its calls it is writing none.
#[derive(Drop)]
pub struct Scribe {
    pub(crate) seat: atomic_table::Seat<(), View>,
    /// How many places it has published.
    pub(crate) places: u32,
}

impl Model for Scribe {
    ghost use Rattle.std.specs.Prelude.{◌≡◌, []};
    ghost use Rattle.seq_words.specs.declared.view.Role.TheVariants.{Scribe};
    ghost use Rattle.seq_words.specs.Seats.{Sitting};

    ghost Value = { Sitting };

    ghost view = { λ s. record { table = s.seat.table_id; view = s.seat.me.0 } };

    ghost invariant = { λ s. (s.seat.me.1 ≡ []) × (s.seat.me.0.role ≡ Scribe s.places) × (s.seat.me.0.stored ≡ 0) };
}

impl Scribe {
    /// How many places it has published, which are the first ones.
    pub fn places(&self) -> u32
        ensures { HasPlaces result self.now.view }
    {
        self.places
    }
}
