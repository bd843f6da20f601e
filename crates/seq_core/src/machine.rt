//! The core of the search as a machine: its state is the list of rows, and an event is accepted exactly
//! where the rows allow it. So each row's low is at most the least cost of its group and its up at least
//! that, whatever is played. This is the plain reference: it keeps nothing but the rows and the places of
//! their groups, and works out each bound and each sum when it is asked for. A step takes no memory. No
//! engine calls it; each changes its rows by the same laws.
ghost use Rattle.std.specs.Prelude.{◌≡◌, ◌<◌, ◌≤◌, ◌++◌, ◌∷◌, [], length, IfOk, OnOk, OnErr, IsOk, None, slice_get};
ghost use Rattle.seq_theory.specs.Problem.{Problem, IsWeighed, AreTold};
ghost use Rattle.seq_theory.specs.Graph.{IsReal};
ghost use Rattle.seq_theory.specs.Rows.{IsAllowed};
ghost use Rattle.seq_inst.specs.Members.{members};
ghost use Rattle.seq_inst.specs.Instances.{problem_of};
ghost use Rattle.seq_core.specs.RowsOf.{rows_of, place_of_group};
ghost use Rattle.seq_core.specs.Changes.{change_row, new_row, raised, capped};
ghost use Rattle.seq_core.specs.Events.{event_of, EntersReal, rows_after, enter_refusal, raise_refusal, cap_refusal, refusal, answer, IsCoreOf, AreBetween};

use crate::event::{Event, Illegal};
use crate::places::Places;
use seq_huff::Scratch;
use seq_inst::{Group, Instance, Row};
use seq_theory::{runs_hold, sound_rows_hold};
use std::alloc::{AllocError, Global};
use std::marker::Model;

/// The rows of a search, in the order of entering.
#[derive(Drop)]
pub struct Core {
    pub(crate) rows: Vec<Row>,
    /// The place of each row's group.
    pub(crate) index: Places,
}

impl Model for Core {
    ghost use Rattle.std.specs.Prelude.{◌≡◌, ◌^◌, ◌<◌, ◌≤◌, length, vec_capacity};
    ghost use Rattle.seq_core.specs.Tables.{Table, placed_groups};

    ghost Value = { Table };

    ghost view = { λ c. record { room = c.index.room; rows = c.rows.items } };

    ghost invariant = { λ c. record {
      numbers : c.index.placed ≡ placed_groups 0 c.rows.items;
      few : length c.rows.items ≤ c.index.room;
      small : c.index.room < 2 ^ 32;
      rows_room : c.index.room ≤ vec_capacity c.rows;
    } };
}

impl Core {
    /// No rows, with room for as many as the limit. It takes all the memory that it will ever take.
    pub fn new(alloc: Global, inst: &Instance, limit: u32) -> Result<Core, AllocError>
        requires some { 1 ≤ limit }
        requires few { limit ≤ 32768 }
        ensures empty { IfOk result (λ c. c.rows ≡ []) }
        ensures limit { IfOk result (λ c. c.room ≡ limit) }
        ensures of { IfOk result (λ c. IsCoreOf (problem_of inst.now) c) }
    {
        let _ = inst;
        runs_hold();
        Core::with_room(alloc, limit)
    }

    /// No rows, with room for so many.
    pub(crate) fn with_room(alloc: Global, room: u32) -> Result<Core, AllocError>
        ensures { IfOk result (λ c. c ≡ record { room = room; rows = [] }) }
    {
        let rows = Vec::with_capacity(alloc, room as usize)?;
        let index = Places::new(alloc, room)?;
        Ok(Core { rows, index })
    }

    /// The rows. The least cost of each row's group lies between its low and its up.
    pub fn rows(&self) -> &[Row]
        ensures rows { result.now ≡ self.now.rows }
        ensures between { (p : Problem) → IsWeighed p → AreTold p → IsCoreOf p self.now → AreBetween p (rows_of result.now) }
    {
        sound_rows_hold();
        self.rows.as_slice()
    }

    /// Plays the event where the rows allow it; a refusal changes nothing. The instance is that of `new`.
    /// Entering takes one look-up. Raising takes at most two bounds for each splitting test, and capping two
    /// look-ups for each, and greedy's cost.
    pub fn step(
        &mut self,
        scratch: &mut Scratch,
        inst: &Instance,
        event: Event,
    ) -> Result<(), Illegal>
        requires of { IsCoreOf (problem_of inst.now) self.old }
        requires real { EntersReal (problem_of inst.now) event }
        ensures of { IsCoreOf (problem_of inst.now) self.new }
        ensures limit { self.new.room ≡ self.old.room }

        // Each refusal comes exactly where its cause is there.
        ensures answer { result ≡ answer (refusal (problem_of inst.now) self.old.room (rows_of self.old.rows) event) }
        ensures allowed { OnOk result (IsAllowed (problem_of inst.now) self.old.room (rows_of self.old.rows) (event_of event)) }
        ensures accepted { IsAllowed (problem_of inst.now) self.old.room (rows_of self.old.rows) (event_of event) → IsOk result }

        ensures ok { OnOk result (self.new.rows ≡ rows_after self.old.rows event) }
        ensures err { OnErr result (self.new ≡ self.old) }
    {
        match event {
            Event::Enter { group } => self.enter(inst, &group),
            Event::Raise { place, to } => self.raise(scratch, inst, place, to),
            Event::Cap { place, to } => self.cap(scratch, inst, place, to),
        }
    }

    /// Enters the group where it has no place and there is room.
    fn enter(&mut self, inst: &Instance, group: &Group) -> Result<(), Illegal>
        requires of { IsCoreOf (problem_of inst.now) self.old }
        requires real { IsReal (problem_of inst.now) (members group.now) }
        ensures of { IsCoreOf (problem_of inst.now) self.new }
        ensures limit { self.new.room ≡ self.old.room }
        ensures answer { result ≡ answer (enter_refusal self.old.room (rows_of self.old.rows) (place_of_group (rows_of self.old.rows) (members group.now))) }
        ensures ok { OnOk result (self.new.rows ≡ rows_after self.old.rows (Event.Enter group.now)) }
        ensures err { OnErr result (self.new ≡ self.old) }
    {
        let _ = inst;
        runs_hold();
        if let Some(place) = self.place_of(group) {
            return Err(Illegal::Repeated { place });
        }
        let rows = self.len();
        if rows >= self.room() {
            return Err(Illegal::Limit { rows });
        }
        self.add(group);
        Ok(())
    }

    /// Raises the low of the row at the place, where the rows allow it.
    fn raise(
        &mut self,
        scratch: &mut Scratch,
        inst: &Instance,
        place: u32,
        to: u64,
    ) -> Result<(), Illegal>
        requires of { IsCoreOf (problem_of inst.now) self.old }
        ensures of { IsCoreOf (problem_of inst.now) self.new }
        ensures limit { self.new.room ≡ self.old.room }
        ensures answer { result ≡ answer (raise_refusal (problem_of inst.now) (rows_of self.old.rows) to (slice_get (rows_of self.old.rows) place)) }
        ensures ok { OnOk result (self.new.rows ≡ rows_after self.old.rows (Event.Raise place to)) }
        ensures err { OnErr result (self.new ≡ self.old) }
    {
        runs_hold();
        let rows = self.len();
        if place >= rows {
            return Err(Illegal::NoPlace { rows });
        }
        let allowed = self.most_low(scratch, inst, place);
        if to > allowed {
            return Err(Illegal::TooHigh { asked: to, allowed });
        }
        self.raise_to(place, to);
        Ok(())
    }

    /// Caps the up of the row at the place, where the rows allow it.
    fn cap(
        &mut self,
        scratch: &mut Scratch,
        inst: &Instance,
        place: u32,
        to: u64,
    ) -> Result<(), Illegal>
        requires of { IsCoreOf (problem_of inst.now) self.old }
        ensures of { IsCoreOf (problem_of inst.now) self.new }
        ensures limit { self.new.room ≡ self.old.room }
        ensures answer { result ≡ answer (cap_refusal (problem_of inst.now) (rows_of self.old.rows) to (slice_get (rows_of self.old.rows) place)) }
        ensures ok { OnOk result (self.new.rows ≡ rows_after self.old.rows (Event.Cap place to)) }
        ensures err { OnErr result (self.new ≡ self.old) }
    {
        runs_hold();
        let rows = self.len();
        if place >= rows {
            return Err(Illegal::NoPlace { rows });
        }
        let allowed = self.least_up(scratch, inst, place);
        if to < allowed {
            return Err(Illegal::TooLow { asked: to, allowed });
        }
        self.cap_to(place, to);
        Ok(())
    }

    /// How many rows there are.
    fn len(&self) -> u32
        ensures { result ≡ length self.now.rows }
    {
        self.rows.len() as u32
    }

    /// How many rows there may be.
    fn room(&self) -> u32
        ensures { result ≡ self.now.room }
    {
        self.index.room()
    }

    /// The place of the group, if it was entered.
    fn place_of(&self, group: &Group) -> Option<u32>
        ensures { result ≡ place_of_group (rows_of self.now.rows) (members group.now) }
    {
        self.index.find(group)
    }

    /// Gives the group a row of which nothing is known.
    pub(crate) fn add(&mut self, group: &Group)
        requires absent { place_of_group (rows_of self.old.rows) (members group.now) ≡ None }
        requires room { length self.old.rows < self.old.room }
        ensures room { self.new.room ≡ self.old.room }
        ensures rows { self.new.rows ≡ self.old.rows ++ new_row group.now ∷ [] }
    {
        let place = self.rows.len() as u32;
        self.index.add(group, place);
        let row = Row {
            group: *group,
            low: 0,
            up: u64::MAX,
        };
        let _ = self.rows.push(row);
    }

    /// Raises the low of the row at the place to a number, if it is lower.
    pub(crate) fn raise_to(&mut self, place: u32, to: u64)
        requires { place < length self.old.rows }
        ensures { self.new ≡ record self.old { rows = change_row self.old.rows place (raised to) } }
    {
        let row = &mut self.rows[place as usize];
        row.low = row.low.max(to);
    }

    /// Caps the up of the row at the place to a number, if it is higher.
    pub(crate) fn cap_to(&mut self, place: u32, to: u64)
        requires { place < length self.old.rows }
        ensures { self.new ≡ record self.old { rows = change_row self.old.rows place (capped to) } }
    {
        let row = &mut self.rows[place as usize];
        row.up = row.up.min(to);
    }
}
