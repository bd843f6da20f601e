//! C07: whether a group line claims no more than its group's bound and the other lines allow. A listed
//! part counts by the low that its first line claims, whatever its bound; that low may be any number, so
//! the sums are of 128 bits. A part that isn't listed counts by its bound, which costs far more than a
//! look-up and an estimate of a test's sum together. So the estimate comes first: it is at most the sum over
//! the bounds of both parts, and where it is as much as the line claims, it is enough, and neither low is
//! looked up. It may not stand in for a part of which less than its bound is claimed.
ghost use Rattle.std.specs.Prelude.{◌≡◌, ◌<◌, List, true, cond, nat_le, unwrap_or, vec_len};
ghost use Rattle.seq_theory.specs.Problem.{is_end, splits as is_split, weight_of as weight_sum};
ghost use Rattle.seq_theory.specs.Bound.{bound as bound_of, step_sum};
ghost use Rattle.seq_theory.specs.Claims.{claim_of, claimed};
ghost use Rattle.seq_inst.specs.Members.{members};
ghost use Rattle.seq_inst.specs.Instances.{problem_of, IsGroupOf};
ghost use Rattle.seq_huff.specs.Orders.{IsOrderFor};
ghost use Rattle.seq_huff.specs.Estimates.{IsEstimateFor};
ghost use Rattle.seq_cert.specs.declared.report.GroupLine.{GroupLine as Line};
ghost use Rattle.seq_check.specs.GroupLooks.{claims_of, most_claimed};
ghost use Rattle.seq_check.specs.Listed.{AreLows, IsListing};

use crate::below::counts_bound;
use crate::listing::Listing;
use crate::lows::Lows;
use seq_cert::GroupLine;
use seq_huff::{Estimate, Order, Scratch, ordered_bound};
use seq_inst::{Group, Instance, group_stands, is_leaf, parts_of, splits, weight_of};

/// The low that the first line of the group claims, if it is listed.
fn listed(lows: &Lows, group: &Group) -> Option<u64>
    ensures { (lines : List Line) → AreLows lows.now lines → result ≡ claim_of (claims_of lines) (members group.now) }
{
    group_stands(group);
    match lows.get(&group.0) {
        Some(low) => Some(*low),
        None => None,
    }
}

/// What a part counts: 0 for one goal, the low of a listed group, and the bound of any other.
fn counted(
    scratch: &mut Scratch,
    order: &Order,
    inst: &Instance,
    group: &Group,
    listed: Option<u64>,
) -> u64
    requires order { IsOrderFor inst.now order.now }
    requires within { IsGroupOf inst.now group.now }
    ensures { result ≡ cond (is_end (problem_of inst.now) (members group.now)) 0 (unwrap_or listed (bound_of (problem_of inst.now) (members group.now))) }
{
    if is_leaf(inst, group) {
        return 0;
    }
    match listed {
        Some(low) => low,
        None => ordered_bound(scratch, order, inst, group),
    }
}

/// Whether what the test costs over the group, with what its parts count, is at least the low.
fn is_reached(
    scratch: &mut Scratch,
    order: &Order,
    inst: &Instance,
    listing: &Listing,
    estimate: &Estimate,
    group: &Group,
    weight: u64,
    test: u32,
    low: u64,
) -> bool
    requires order { IsOrderFor inst.now order.now }
    requires within { IsGroupOf inst.now group.now }
    requires estimate { IsEstimateFor inst.now group.now estimate.now }
    requires weight { weight ≡ weight_sum (problem_of inst.now) (members group.now) }
    requires there { test < vec_len inst.now.costs }
    requires splits { is_split (problem_of inst.now) (members group.now) test ≡ true }
    ensures { (lines : List Line) → IsListing (problem_of inst.now) listing.now lines → result ≡ nat_le low (step_sum (problem_of inst.now) (claimed (problem_of inst.now) (claims_of lines)) (members group.now) test) }
{
    let parts = parts_of(inst, group, test);
    if counts_bound(&listing.below, &parts.pass) && counts_bound(&listing.below, &parts.fail) {
        if low <= estimate.least_sum(order, inst, group, test) {
            return true;
        }
    }
    let pass_low = listed(&listing.lows, &parts.pass);
    let fail_low = listed(&listing.lows, &parts.fail);
    let pass = counted(scratch, order, inst, &parts.pass, pass_low);
    let fail = counted(scratch, order, inst, &parts.fail, fail_low);
    let first = u128::from(inst.costs[test as usize]) * u128::from(weight);
    u128::from(low) <= first + (u128::from(pass) + u128::from(fail))
}

/// Whether the line claims no more than is allowed. It takes the bound of its group first, and only then
/// goes through the splitting tests, with an estimate each.
pub fn is_allowed(
    scratch: &mut Scratch,
    order: &Order,
    inst: &Instance,
    listing: &Listing,
    line: &GroupLine,
) -> bool
    requires order { IsOrderFor inst.now order.now }
    requires within { IsGroupOf inst.now line.now.group }
    ensures { (lines : List Line) → IsListing (problem_of inst.now) listing.now lines → result ≡ nat_le line.now.low (most_claimed (problem_of inst.now) (claims_of lines) (members line.now.group)) }
{
    let group = &line.group;
    if line.low <= ordered_bound(scratch, order, inst, group) {
        return true;
    }
    let weight = weight_of(inst, group);
    let estimate = Estimate::of(order, inst, group);
    let tests = inst.costs.len() as u32;
    let mut some = false;
    for test in 0..tests {
        if splits(inst, group, test) {
            if !is_reached(
                scratch, order, inst, listing, &estimate, group, weight, test, line.low,
            ) {
                return false;
            }
            some = true;
        }
    }
    some
}
