//! Groups by number, with what was worked out of each: its bound, and greedy's test and cost over it once
//! these were asked for. A search meets the same groups again and again by other tests, so each of these
//! is worked out once. A group of which the bound alone is asked gets no number: the memo has such bounds.
//! Numbers go upwards from 0 in the order in which groups are met, so that whatever
//! else an engine knows of groups can stand in lists by number.
//!
//! `reserve` takes the memory for so many more groups. `number_within` takes none: it gives numbers while
//! that room lasts. A group that is met later has none, and what is asked of it is worked out afresh, each
//! time; so a lack of room costs time and changes no answer. For groups that will be entered room is held,
//! which none but these use.
ghost use Rattle.std.specs.Prelude.{◌≡◌, ◌+◌, ◌-◌, ◌++◌, ◌∷◌, [], ◌<◌, ◌≤◌, false, true, max, length, slice_get, slice_set, IsOk, IfOk, OnOk, OnErr, IfSome, IfNone, Some, None};
ghost use Rattle.seq_theory.specs.Problem.{Problem, is_end};
ghost use Rattle.seq_theory.specs.Bound.{bound as bound_by};
ghost use Rattle.seq_theory.specs.Graph.{is_entered};
ghost use Rattle.seq_huff.specs.Bounds.{greatest_cost};
ghost use Rattle.seq_inst.specs.Instances.{problem_of, IsGroupOf};
ghost use Rattle.seq_inst.specs.Members.{members};
ghost use Rattle.seq_graph.specs.GreedyChoice.{AreEstimatesFor};
ghost use Rattle.seq_graph.specs.Numbered.{capacity, KeepsNumberRoom, HasNumber, HasGreedy, IsGreedyOf, AreNumbers, KeepsNumbers, AreNumbersFor};

use crate::greedy::{Estimates, Greedy, estimates_of};
use crate::memo::BoundMemo;
use indexmap::IndexMap;
use seq_inst::{Group, Instance, group_stands, is_leaf, same_words_hold};
use std::alloc::{AllocError, Global};
use std::marker::Model;

/// Groups by number.
#[derive(Drop)]
pub struct Numbers {
    /// By which bounds are worked out, and the latest of them.
    memo: BoundMemo,
    /// The bound of each group by its words, in the order of numbers.
    bounds: IndexMap<[u64; 8], u64>,
    /// Greedy's test and cost over each group, by number.
    greedy: Vec<Option<Greedy>>,
    /// How many more groups both lists have room for, beside those for which room is held.
    room: u32,
    /// For how many groups room is held that are entered later.
    held: u32,
}

impl Model for Numbers {
    ghost use Rattle.std.specs.Prelude.{◌≡◌, ◌+◌, ◌^◌, ◌<◌, ◌≤◌, length, map, vec_capacity};
    ghost use Rattle.indexmap.specs.IndexMap.{keys, values, spare};
    ghost use Rattle.seq_core.specs.Words.{AreWords, classes_of};
    ghost use Rattle.seq_graph.specs.Numbered.{Numbered, AreNumbersFor};

    ghost Value = { Numbered };

    ghost view = { λ m. record { memo = m.memo; groups = map classes_of (keys m.bounds); bounds = values m.bounds; greedy = m.greedy.items; room = m.room; held = m.held } };

    ghost invariant = { λ m. record {
      words : AreWords (keys m.bounds);
      as_many : length m.greedy.items ≡ length (keys m.bounds);
      few : length m.greedy.items + m.room + m.held < 2 ^ 32;
      room_for_bounds : m.room + m.held ≤ spare m.bounds;
      room_for_greedy : length m.greedy.items + m.room + m.held ≤ vec_capacity m.greedy;
    } };
}

impl Numbers {
    /// No numbers yet, and no room.
    pub fn new(alloc: Global, inst: &Instance) -> Result<Numbers, AllocError>
        ensures numbers { IfOk result (AreNumbersFor inst.now) }
        ensures none { IfOk result (λ v. v.groups ≡ []) }
        ensures room { IfOk result (λ v. capacity v ≡ 0) }
    {
        let memo = BoundMemo::new(alloc, inst)?;
        Ok(Numbers {
            memo,
            bounds: IndexMap::new(alloc),
            greedy: Vec::new(alloc),
            room: 0,
            held: 0,
        })
    }

    /// How many groups have numbers.
    pub fn len(&self) -> u32
        ensures { result ≡ length self.now.groups }
    {
        self.greedy.len() as u32
    }

    /// How many groups can have numbers without more room.
    pub(crate) fn capacity(&self) -> u32
        ensures { result ≡ capacity self.now }
    {
        self.greedy.len() as u32 + self.room + self.held
    }

    /// For how many more groups there is room that isn't held.
    pub(crate) fn room(&self) -> u32
        ensures { result ≡ self.now.room }
    {
        self.room
    }

    /// For how many groups room is held.
    pub(crate) fn held(&self) -> u32
        ensures { result ≡ self.now.held }
    {
        self.held
    }

    /// The group of the number.
    pub fn group_at(&self, number: u32) -> Group
        requires { number < length self.now.groups }
        ensures { HasNumber self.now (members result) number }
    {
        match self.bounds.get_index(number as usize) {
            Some((words, _)) => Group(*words),
            None => unreachable!(),
        }
    }

    /// The bound of the group of the number.
    pub fn bound_at(&self, number: u32) -> u64
        requires { number < length self.now.groups }
        ensures { slice_get self.now.bounds number ≡ Some result }
    {
        self.bounds[number as usize]
    }

    /// What is kept of greedy at the number.
    fn greedy_at(&self, number: u32) -> Option<Greedy>
        requires { number < length self.now.groups }
        ensures { slice_get self.now.greedy number ≡ Some result }
    {
        self.greedy[number as usize]
    }

    /// Greedy's test and cost over the group, where they are kept.
    pub(crate) fn kept_greedy(&self, group: &Group) -> Option<Greedy>
        ensures { IfSome result (HasGreedy self.now (members group.now)) }
    {
        match self.find(group) {
            Some(number) => self.greedy_at(number),
            None => None,
        }
    }

    /// Writes greedy's test and cost at the number.
    fn write_greedy(&mut self, number: u32, greedy: Greedy)
        requires { number < length self.old.groups }
        ensures { self.new ≡ record self.old { greedy = slice_set self.old.greedy number (Some greedy) } }
    {
        self.greedy[number as usize] = Some(greedy);
    }

    /// Keeps greedy's test and cost over the group, where it has a number or there is room for one.
    pub(crate) fn keep_greedy(&mut self, inst: &Instance, group: &Group, greedy: Greedy)
        requires numbers { AreNumbersFor inst.now self.old }
        requires within { IsGroupOf inst.now group.now }
        requires greedy { IsGreedyOf (problem_of inst.now) (members group.now) greedy }
        ensures numbers { AreNumbersFor inst.now self.new }
        ensures keeps { KeepsNumbers self.old self.new }
        ensures room { KeepsNumberRoom self.old self.new }
    {
        if let Some(number) = self.number_within(inst, group) {
            self.write_greedy(number, greedy);
        }
    }

    /// The number of the group, if it has one.
    pub fn find(&self, group: &Group) -> Option<u32>
        ensures found { IfSome result (HasNumber self.now (members group.now)) }
        ensures none { IfNone result (is_entered self.now.groups (members group.now) ≡ false) }
    {
        group_stands(group);
        same_words_hold();
        match self.bounds.get_index_of(&group.0) {
            Some(index) => Some(index as u32),
            None => None,
        }
    }

    /// Makes room for so many more groups, and holds room for so many that are entered later. It takes no
    /// memory where there is as much room. Where the memory is short, nothing has changed.
    pub fn reserve(&mut self, more: u32, held: u32) -> Result<(), AllocError>
        ensures ok { OnOk result (self.new ≡ record self.old { room = max self.old.room more; held = max self.old.held held }) }
        ensures err { OnErr result (self.new ≡ self.old) }
        ensures numbers { (p : Problem) → AreNumbers p self.old → AreNumbers p self.new }
        ensures groups { self.new.groups ≡ self.old.groups }
        ensures more { self.old.held ≤ self.new.held }
        ensures capacity { capacity self.new ≤ length self.old.groups + (max self.old.room more + max self.old.held held) }
    {
        let room = self.room.max(more);
        let held = self.held.max(held);
        let left = u32::MAX - self.len();
        if room > left || held > left - room {
            return Err(AllocError);
        }
        self.bounds.reserve((room + held) as usize)?;
        self.greedy.reserve((room + held) as usize)?;
        self.room = room;
        self.held = held;
        Ok(())
    }

    /// Gives the group, which has no number, the next one. There is room, so both lists take it.
    fn add(&mut self, group: &Group, bound: u64) -> u32
        requires absent { is_entered self.old.groups (members group.now) ≡ false }
        requires room { 0 < self.old.room }
        ensures number { result ≡ length self.old.groups }
        ensures added { self.new ≡ record self.old { groups = self.old.groups ++ members group.now ∷ []; bounds = self.old.bounds ++ bound ∷ []; greedy = self.old.greedy ++ None ∷ []; room = self.old.room - 1 } }
    {
        group_stands(group);
        let number = self.len();
        let _ = self.bounds.insert(group.0, bound);
        let _ = self.greedy.push(None);
        self.room -= 1;
        number
    }

    /// Gives the group, which has no number, the next one, with its bound.
    fn next_number(&mut self, inst: &Instance, group: &Group) -> u32
        requires numbers { AreNumbersFor inst.now self.old }
        requires within { IsGroupOf inst.now group.now }
        requires absent { is_entered self.old.groups (members group.now) ≡ false }
        requires room { 0 < self.old.room }
        ensures numbers { AreNumbersFor inst.now self.new }
        ensures keeps { KeepsNumbers self.old self.new }
        ensures number { HasNumber self.new (members group.now) result }
        ensures room { KeepsNumberRoom self.old self.new }
        ensures one { self.old.room ≤ self.new.room + 1 }
    {
        let bound = self.memo_bound(inst, group);
        self.add(group, bound)
    }

    /// Room is no longer held for one of the groups that are entered later.
    fn release(&mut self)
        requires held { 0 < self.old.held }
        ensures released { self.new ≡ record self.old { room = self.old.room + 1; held = self.old.held - 1 } }
        ensures numbers { (p : Problem) → AreNumbers p self.old → AreNumbers p self.new }
    {
        self.room += 1;
        self.held -= 1;
    }

    /// The number of a group that is entered. One that has none gets the next one, with its bound. It uses
    /// room that is held, and takes no memory.
    pub fn number_of(&mut self, inst: &Instance, group: &Group) -> u32
        requires numbers { AreNumbersFor inst.now self.old }
        requires within { IsGroupOf inst.now group.now }
        requires held { 0 < self.old.held }
        ensures numbers { AreNumbersFor inst.now self.new }
        ensures keeps { KeepsNumbers self.old self.new }
        ensures number { HasNumber self.new (members group.now) result }
        ensures capacity { capacity self.new ≡ capacity self.old }
        ensures one { self.new.held + 1 ≡ self.old.held }
    {
        self.release();
        match self.number_within(inst, group) {
            Some(number) => number,
            None => unreachable!(),
        }
    }

    /// The number of the group. One that has none gets the next one, with its bound, while there is room.
    /// It takes no memory.
    pub fn number_within(&mut self, inst: &Instance, group: &Group) -> Option<u32>
        requires numbers { AreNumbersFor inst.now self.old }
        requires within { IsGroupOf inst.now group.now }
        ensures numbers { AreNumbersFor inst.now self.new }
        ensures keeps { KeepsNumbers self.old self.new }

        // None comes only where the group has no number and no room is left.
        ensures number { IfSome result (HasNumber self.new (members group.now)) }
        ensures absent { IfNone result (is_entered self.old.groups (members group.now) ≡ false) }
        ensures full { IfNone result (self.old.room ≡ 0) }

        // A new number takes up the room of one.
        ensures room { KeepsNumberRoom self.old self.new }
        ensures one { self.old.room ≤ self.new.room + 1 }
    {
        if let Some(number) = self.find(group) {
            return Some(number);
        }
        if self.room == 0 {
            return None;
        }
        Some(self.next_number(inst, group))
    }

    /// The bound of the group, by the memo. No number changes.
    fn memo_bound(&mut self, inst: &Instance, group: &Group) -> u64
        requires numbers { AreNumbersFor inst.now self.old }
        requires within { IsGroupOf inst.now group.now }
        ensures numbers { AreNumbersFor inst.now self.new }
        ensures same { self.new ≡ record self.old { memo = self.new.memo } }
        ensures value { result ≡ bound_by (problem_of inst.now) (members group.now) }
        ensures fits { result ≤ greatest_cost }
    {
        self.memo.bound_of(inst, group)
    }

    /// The estimates of the tests that split the group, which has two goals or more.
    pub(crate) fn estimates(&self, inst: &Instance, group: &Group) -> Estimates
        requires numbers { AreNumbersFor inst.now self.now }
        requires within { IsGroupOf inst.now group.now }
        requires more { is_end (problem_of inst.now) (members group.now) ≡ false }
        ensures { AreEstimatesFor inst.now group.now result }
    {
        estimates_of(&self.memo.order, inst, group)
    }

    /// The bound of the group: what is kept where it has a number, else by the memo. It gets no number.
    pub(crate) fn bound_within(&mut self, inst: &Instance, group: &Group) -> u64
        requires numbers { AreNumbersFor inst.now self.old }
        requires within { IsGroupOf inst.now group.now }
        ensures numbers { AreNumbersFor inst.now self.new }
        ensures keeps { KeepsNumbers self.old self.new }
        ensures room { KeepsNumberRoom self.old self.new }
        ensures same { self.new ≡ record self.old { memo = self.new.memo } }
        ensures value { result ≡ bound_by (problem_of inst.now) (members group.now) }
        ensures fits { result ≤ greatest_cost }
    {
        if is_leaf(inst, group) {
            return 0;
        }
        match self.find(group) {
            Some(number) => self.bound_at(number),
            None => self.memo_bound(inst, group),
        }
    }
}
