//! A map from groups to places that takes no memory once it is made. A group is found by its eight words,
//! in a table for which room is made at the start, so that a look-up takes about one comparison however
//! many groups there are.
ghost use Rattle.std.specs.Prelude.{◌≡◌, ◌++◌, ◌∷◌, [], ◌<◌, length, IfOk, None};
ghost use Rattle.seq_inst.specs.Members.{members};
ghost use Rattle.seq_core.specs.Mapping.{place_of};

use indexmap::IndexMap;
use seq_inst::{Group, group_stands, same_words_hold};
use std::alloc::{AllocError, Global};
use std::marker::Model;

/// A map from groups to places, with fixed room.
#[derive(Drop)]
pub struct Places {
    /// The place of each group by its words, in the order of adding.
    places: IndexMap<[u64; 8], u32>,
    room: u32,
}

impl Model for Places {
    ghost use Rattle.std.specs.Prelude.{◌+◌, ◌≤◌, length};
    ghost use Rattle.indexmap.specs.IndexMap.{keys, spare};
    ghost use Rattle.seq_core.specs.Words.{AreWords};
    ghost use Rattle.seq_core.specs.Mapping.{Mapping, placed_from};

    ghost Value = { Mapping };

    ghost view = { λ m. record { room = m.room; placed = placed_from m.places.entries } };

    ghost invariant = { λ m. record {
      words : AreWords (keys m.places);
      room_left : m.room ≤ length m.places.entries + spare m.places;
    } };
}

impl Places {
    /// A map without groups, with room for so many. It takes all the memory that it will ever take.
    pub fn new(alloc: Global, room: u32) -> Result<Places, AllocError>
        ensures { IfOk result (λ m. m ≡ record { room = room; placed = [] }) }
    {
        let places = IndexMap::with_capacity(alloc, room as usize)?;
        Ok(Places { places, room })
    }

    /// How many groups there may be.
    pub fn room(&self) -> u32
        ensures { result ≡ self.now.room }
    {
        self.room
    }

    /// The place of the group, or None where the group is not there.
    pub fn find(&self, group: &Group) -> Option<u32>
        ensures { result ≡ place_of self.now.placed (members group.now) }
    {
        group_stands(group);
        same_words_hold();
        self.places.get(&group.0).copied()
    }

    /// Adds the group with this place, and nothing else. It takes no memory.
    pub fn add(&mut self, group: &Group, place: u32)
        requires absent { place_of self.old.placed (members group.now) ≡ None }
        requires room { length self.old.placed < self.old.room }
        ensures { self.new ≡ record { room = self.old.room; placed = self.old.placed ++ record { group = members group.now; place = place } ∷ [] } }
    {
        group_stands(group);
        same_words_hold();
        let _ = self.places.insert(group.0, place);
    }
}
