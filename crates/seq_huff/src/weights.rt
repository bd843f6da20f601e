//! Huffman's cost of a group: of the weights that its goals have in it. It is the least number of
//! tests, weighted by the classes, that any tree of tests could ask, if there were a test for each way
//! to divide the group.
ghost use Rattle.std.specs.Prelude.{◌≡◌, ◌≤◌, length, take, map};
ghost use Rattle.seq_theory.specs.Huffman.{huff};
ghost use Rattle.seq_theory.specs.Bound.{goal_weights};
ghost use Rattle.seq_inst.specs.Members.{members};
ghost use Rattle.seq_inst.specs.Instances.{problem_of, IsGroupOf};
ghost use Rattle.seq_huff.specs.Bounds.{UndercutsTrees};

use crate::merging::huffman_of;
use crate::scratch::Scratch;
use seq_inst::{Group, Instance};
use seq_theory::huffman_is_least;

/// Writes the weights of the group's classes, and says how many there are.
fn write_weights(inst: &Instance, group: &Group, out: &mut [u64]) -> usize
    requires within { IsGroupOf inst.now group.now }
    requires room { 512 ≤ length out.old }
    ensures count { result ≡ length (members group.now) }
    ensures weights { take result out.new ≡ map (problem_of inst.now).weight (members group.now) }
{
    let mut count = 0;
    let mut next = group.first_from(0);
    while let Some(class) = next {
        out[count] = inst.weights[class as usize];
        count += 1;
        next = group.first_from(class + 1);
    }
    count
}

/// Huffman's cost of the weights that the goals of the group have in it. Each class is a goal by itself, so
/// these are the weights of its classes.
pub fn huffman(scratch: &mut Scratch, inst: &Instance, group: &Group) -> u64
    requires { IsGroupOf inst.now group.now }
    ensures value { result ≡ huff (goal_weights (problem_of inst.now) (members group.now)) }
    ensures weights { goal_weights (problem_of inst.now) (members group.now) ≡ map (problem_of inst.now).weight (members group.now) }
    ensures least { UndercutsTrees (goal_weights (problem_of inst.now) (members group.now)) result }
{
    huffman_is_least();
    let count = write_weights(inst, group, &mut scratch.weights);
    huffman_of(&mut scratch.weights[..count])
}
