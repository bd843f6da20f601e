//! Bounds by the order of weights and costs, with a memo of fixed size. A search asks for the bounds of far
//! more groups than it keeps: each test that might be greedy's, or of least sum, makes two parts, and few of
//! these are ever asked for again but soon. So a bound is remembered in a slot that the group's words name,
//! until a bound of another group takes the slot; a bound that fell out is worked out again. This is a cache
//! that is mapped directly, as of a processor: no list of groups grows by it.
ghost use Rattle.std.specs.Prelude.{◌≡◌, ◌<◌, ◌≤◌, vec_len, IfOk};
ghost use Rattle.seq_theory.specs.Bound.{bound as bound_by};
ghost use Rattle.seq_huff.specs.Bounds.{greatest_cost};
ghost use Rattle.seq_inst.specs.Instances.{problem_of, IsGroupOf};
ghost use Rattle.seq_inst.specs.Members.{members};
ghost use Rattle.seq_graph.specs.Memos.{IsMemoOf};

use seq_huff::{Order, Scratch, ordered_bound};
use seq_inst::{Group, Instance, root};
use std::alloc::{AllocError, Global};

/// The most slots of a memo, each of 72 bytes.
const MOST_SLOTS: usize = 65536;

/// A group with its bound.
#[derive(Clone, Copy)]
pub(crate) struct Remembered {
    pub(crate) group: Group,
    pub(crate) bound: u64,
}

/// The weights and the costs in order, so that no bound sorts them, room for the lists of one bound, and the
/// bounds that are remembered.
#[derive(Drop)]
pub(crate) struct BoundMemo {
    pub(crate) order: Order,
    scratch: Scratch,
    pub(crate) slots: Vec<Remembered>,
}

/// A number that mixes the group's words.
fn mixed(group: &Group) -> u64 {
    let mut mix = 0u64;
    for word in group.0 {
        let next = (mix ^ word).wrapping_mul(0x9e37_79b9_7f4a_7c15);
        mix = next ^ (next >> 32);
    }
    mix
}

/// How many slots serve an instance: one for each class and test, up to the most.
fn slots_for(inst: &Instance) -> usize
    ensures { 0 < result }
{
    let parts = inst.weights.len() * (inst.costs.len() + 1);
    parts.clamp(1, MOST_SLOTS)
}

impl BoundMemo {
    /// The order of an instance, and a memo in which each slot has the group of all classes.
    pub(crate) fn new(alloc: Global, inst: &Instance) -> Result<BoundMemo, AllocError>
        ensures { IfOk result (IsMemoOf (problem_of inst.now)) }
    {
        let order = Order::of(alloc, inst)?;
        let group = root(inst);
        let mut scratch = Scratch::new();
        let bound = ordered_bound(&mut scratch, &order, inst, &group);
        let slots = vec![in alloc; Remembered { group, bound }; slots_for(inst)]?;
        Ok(BoundMemo {
            order,
            scratch,
            slots,
        })
    }

    /// The slot of the group.
    fn slot_of(&self, group: &Group) -> usize
        requires { 0 < vec_len self.now.slots }
        ensures { result < vec_len self.now.slots }
    {
        (mixed(group) % self.slots.len() as u64) as usize
    }

    /// The bound of the group: the one that is remembered, or worked out and remembered from now on.
    pub(crate) fn bound_of(&mut self, inst: &Instance, group: &Group) -> u64
        requires memo { IsMemoOf (problem_of inst.now) self.old }
        requires within { IsGroupOf inst.now group.now }
        ensures memo { IsMemoOf (problem_of inst.now) self.new }
        ensures value { result ≡ bound_by (problem_of inst.now) (members group.now) }
        ensures fits { result ≤ greatest_cost }
    {
        let at = self.slot_of(group);
        let remembered = self.slots[at];
        if remembered.group.is_same(group) {
            return remembered.bound;
        }
        let bound = ordered_bound(&mut self.scratch, &self.order, inst, group);
        self.slots[at] = Remembered {
            group: *group,
            bound,
        };
        bound
    }
}
