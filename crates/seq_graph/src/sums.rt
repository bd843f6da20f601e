//! Sums of tests over what their parts count for a low, and the tests whose sums are too great to be of
//! use again.
ghost use Rattle.std.specs.Prelude.{◌≡◌, nat_le, All, filter};
ghost use Rattle.seq_graph.specs.Sums.{counted_sum, IsCountable};

use crate::graph::Count;
use crate::node::{Split, Waiting};
use seq_inst::Instance;

/// The sum of a test over a group of this weight, and what its parts count.
pub(crate) fn sum_of(inst: &Instance, counts: &[Count], weight: u64, split: Split) -> u64
    requires { IsCountable inst.now.costs.items weight counts.now split }
    ensures { result ≡ counted_sum inst.now.costs.items weight counts.now split }
{
    let pass = counts[split.pass as usize].low;
    let fail = counts[split.fail as usize].low;
    u64::from(inst.costs[split.test as usize]) * weight + (pass + fail)
}

/// Leaves out the tests whose sums are above the up. Those that stay are moved to the front, in order.
pub(crate) fn leave_out(
    inst: &Instance,
    counts: &[Count],
    weight: u64,
    up: u64,
    splits: &mut Vec<Split>,
)
    requires { All (IsCountable inst.now.costs.items weight counts.now) splits.old.items }
    ensures { splits.new.items ≡ filter (λ s. nat_le (counted_sum inst.now.costs.items weight counts.now s) up) splits.old.items }
{
    let mut left = 0;
    for at in 0..splits.len() {
        let split = splits[at];
        if sum_of(inst, counts, weight, split) <= up {
            splits[left] = split;
            left += 1;
        }
    }
    splits.truncate(left);
}

/// Leaves out the tests that wait with a number above the up. Those that stay are moved to the front, in
/// order.
pub(crate) fn leave_out_waiting(up: u64, waiting: &mut Vec<Waiting>)
    ensures { waiting.new.items ≡ filter (λ w. nat_le w.least up) waiting.old.items }
{
    let mut left = 0;
    for at in 0..waiting.len() {
        let entry = waiting[at];
        if entry.least <= up {
            waiting[left] = entry;
            left += 1;
        }
    }
    waiting.truncate(left);
}
