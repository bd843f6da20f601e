//! The bound one test further: whatever a strategy asks first, it pays that test over the whole group
//! and at least the bounds of both parts.
ghost use Rattle.std.specs.Prelude.{◌≡◌, ◌<◌, ◌≤◌, vec_len};
ghost use Rattle.seq_theory.specs.Problem.{weight_of as weight_sum};
ghost use Rattle.seq_theory.specs.Bound.{step_sum as step_sum_of, bound as bound_of};
ghost use Rattle.seq_theory.specs.Greedy.{one_step as one_step_of};
ghost use Rattle.seq_inst.specs.Members.{members};
ghost use Rattle.seq_inst.specs.Instances.{problem_of, IsGroupOf};
ghost use Rattle.seq_huff.specs.Bounds.{IsAtMostLeast, WantsParts, greatest_cost};
ghost use Rattle.seq_huff.specs.Choice.{lesser_number};

use crate::lower::bound;
use crate::scratch::Scratch;
use seq_inst::{Group, Instance, is_leaf, parts_of, splits, weight_of};
use seq_theory::bounds_hold;

/// The sum of a test over the group, of which the weight is known, and the bounds of its parts.
pub(crate) fn step_sum(
    scratch: &mut Scratch,
    inst: &Instance,
    group: &Group,
    test: u32,
    weight: u64,
) -> u64
    requires within { IsGroupOf inst.now group.now }
    requires there { test < vec_len inst.now.costs }
    requires weight { weight ≡ weight_sum (problem_of inst.now) (members group.now) }
    ensures { result ≡ step_sum_of (problem_of inst.now) (bound_of (problem_of inst.now)) (members group.now) test }
{
    let parts = parts_of(inst, group, test);
    let pass = bound(scratch, inst, &parts.pass);
    let fail = bound(scratch, inst, &parts.fail);
    u64::from(inst.costs[test as usize]) * weight + (pass + fail)
}

/// The lesser of an earlier number, if there is one, and a new one.
fn lesser_of(earlier: Option<u64>, number: u64) -> u64
    ensures { result ≡ lesser_number earlier number }
{
    match earlier {
        None => number,
        Some(least) => least.min(number),
    }
}

/// The larger of the bound and the least sum of a splitting test and the bounds of its parts; 0 for
/// one goal.
pub fn one_step(scratch: &mut Scratch, inst: &Instance, group: &Group) -> u64
    requires { IsGroupOf inst.now group.now }
    ensures value { result ≡ one_step_of (problem_of inst.now) (members group.now) }
    ensures above { bound_of (problem_of inst.now) (members group.now) ≤ result }
    ensures low { IsAtMostLeast (problem_of inst.now) (members group.now) result }
    ensures wanted { WantsParts (problem_of inst.now) (members group.now) result }
    ensures fits { result ≤ greatest_cost }
{
    bounds_hold();
    if is_leaf(inst, group) {
        return 0;
    }
    let low = bound(scratch, inst, group);
    let weight = weight_of(inst, group);
    let tests = inst.costs.len() as u32;
    let mut least = None;
    for test in 0..tests {
        if splits(inst, group, test) {
            let sum = step_sum(scratch, inst, group, test, weight);
            least = Some(lesser_of(least, sum));
        }
    }
    low.max(least.unwrap_or(0))
}
