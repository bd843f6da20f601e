//! The mass of a group: how many classes it has, what it weighs, and what the potential says of its classes
//! together. All three are sums over the classes, so the mass of one part of a group gives that of the
//! other; and the mass alone says how much Huffman's cost of the group is at least.
ghost use Rattle.std.specs.Prelude.{◌≡◌, ◌+◌, ◌*◌, ◌^◌, ◌<◌, ◌≤◌, ℕ, length};
ghost use Rattle.seq_theory.specs.Problem.{weight_of};
ghost use Rattle.seq_theory.specs.Huffman.{huff};
ghost use Rattle.seq_theory.specs.Bound.{goal_weights};
ghost use Rattle.seq_inst.specs.Members.{members};
ghost use Rattle.seq_inst.specs.Instances.{problem_of, IsGroupOf};
ghost use Rattle.seq_huff.specs.Orders.{IsOrderFor};
ghost use Rattle.seq_huff.specs.Potential.{unit, potential as potential_at, potentials};
ghost use Rattle.seq_huff.specs.Estimates.{IsMassFor};

use crate::order::Order;
use crate::potential::{UNIT, nearly_potential};
use seq_inst::{Ahead, Group, Instance, count_of, is_leaf};

/// How many classes there are, their weight, and the sum of their potentials.
#[derive(Clone, Copy)]
pub(crate) struct Mass {
    pub(crate) classes: u32,
    pub(crate) weight: u64,
    pub(crate) potential: u64,
}

/// The masses of the two parts that a test makes of a group.
#[derive(Clone, Copy)]
pub(crate) struct PartMasses {
    pub(crate) pass: Mass,
    pub(crate) fail: Mass,
}

/// The mass of the group. It goes from class to class, and passes over words without one.
pub(crate) fn mass_of(order: &Order, inst: &Instance, group: &Group) -> Mass
    requires order { IsOrderFor inst.now order.now }
    requires within { IsGroupOf inst.now group.now }
    ensures { IsMassFor inst.now group.now result }
{
    let mut classes = 0;
    let mut weight = 0;
    let mut potential = 0;
    let mut ahead = Ahead::of(group);
    let mut next = ahead.next_class(group);
    while let Some(class) = next {
        classes += 1;
        weight += inst.weights[class as usize];
        potential += order.potentials[class as usize];
        next = ahead.next_class(group);
    }
    Mass {
        classes,
        weight,
        potential,
    }
}

/// What is left of a mass without a part of it.
fn without(whole: Mass, part: Mass) -> Mass
    requires classes { part.classes ≤ whole.classes }
    requires weight { part.weight ≤ whole.weight }
    requires potential { part.potential ≤ whole.potential }
    ensures classes { result.classes + part.classes ≡ whole.classes }
    ensures weight { result.weight + part.weight ≡ whole.weight }
    ensures potential { result.potential + part.potential ≡ whole.potential }
{
    Mass {
        classes: whole.classes - part.classes,
        weight: whole.weight - part.weight,
        potential: whole.potential - part.potential,
    }
}

/// The masses of both parts of a group of this mass. Only the part of fewer classes is gone through.
pub(crate) fn masses_of(
    order: &Order,
    inst: &Instance,
    whole: Mass,
    pass: &Group,
    fail: &Group,
) -> PartMasses
    requires order { IsOrderFor inst.now order.now }
    requires within_pass { IsGroupOf inst.now pass.now }
    requires within_fail { IsGroupOf inst.now fail.now }
    requires classes { whole.classes ≡ length (members pass.now) + length (members fail.now) }
    requires weight { whole.weight ≡ weight_of (problem_of inst.now) (members pass.now) + weight_of (problem_of inst.now) (members fail.now) }
    requires potential { whole.potential ≡ potentials (problem_of inst.now) (members pass.now) + potentials (problem_of inst.now) (members fail.now) }
    ensures pass { IsMassFor inst.now pass.now result.pass }
    ensures fail { IsMassFor inst.now fail.now result.fail }
{
    if count_of(pass) <= whole.classes / 2 {
        let mass = mass_of(order, inst, pass);
        PartMasses {
            pass: mass,
            fail: without(whole, mass),
        }
    } else {
        let mass = mass_of(order, inst, fail);
        PartMasses {
            pass: without(whole, mass),
            fail: mass,
        }
    }
}

/// At most Huffman's cost of the weights of some classes of this mass.
fn huffman_by_mass(mass: Mass) -> u64
    requires some { 1 ≤ mass.weight }
    requires light { mass.weight < 2 ^ 32 }
    ensures { (huffman : ℕ) → potential_at mass.weight ≤ mass.potential + unit * huffman → result ≤ huffman }
{
    nearly_potential(mass.weight)
        .saturating_sub(mass.potential)
        .div_ceil(UNIT)
}

/// At most Huffman's cost of a group of this mass. Where one class has most of the weight its potential
/// says little; but the last merge of two classes or more costs the whole weight.
pub(crate) fn least_huffman(inst: &Instance, group: &Group, mass: Mass) -> u64
    requires within { IsGroupOf inst.now group.now }
    requires mass { IsMassFor inst.now group.now mass }
    ensures { result ≤ huff (goal_weights (problem_of inst.now) (members group.now)) }
{
    if is_leaf(inst, group) {
        0
    } else {
        huffman_by_mass(mass).max(mass.weight)
    }
}
