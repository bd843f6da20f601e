//! Worked values of bounds and of greedy's cost.
ghost use Rattle.std.specs.Prelude.{◌≡◌, IfOk, vec_len};

use crate::merging::huffman_of;
use crate::{
    Estimate, Order, Scratch, bound, greedy, greedy_cost, huffman, one_step, ordered_bound,
};
use seq_inst::{Answer, Group, Instance, checked_holds, cost_of, part, root, splits};
use std::alloc::{AllocError, Global};
use std::test::Fail;

/// Two faults and a good state; test 0 costs 2 and fails for class 1, test 1 costs 1 and fails for
/// class 2.
fn two_faults(alloc: Global) -> Result<Instance, AllocError>
    ensures { IfOk result (λ i. vec_len i.costs ≡ 2) }
{
    let weights = vec![in alloc; 6, 3, 1]?;
    let costs = vec![in alloc; 2, 1]?;
    let passes = vec![in alloc;
        Group([5, 0, 0, 0, 0, 0, 0, 0]),
        Group([3, 0, 0, 0, 0, 0, 0, 0]),
    ]?;
    checked_holds();
    Ok(Instance::new(weights, costs, passes))
}

/// A receiver of three stages, each of which a test sees with those before it.
fn receiver(alloc: Global) -> Result<Instance, AllocError> {
    let weights = vec![in alloc; 10, 4, 4, 4]?;
    let costs = vec![in alloc; 2, 2, 2]?;
    let passes = vec![in alloc;
        Group([13, 0, 0, 0, 0, 0, 0, 0]),
        Group([9, 0, 0, 0, 0, 0, 0, 0]),
        Group([1, 0, 0, 0, 0, 0, 0, 0]),
    ]?;
    checked_holds();
    Ok(Instance::new(weights, costs, passes))
}

/// Four faults and a good state of one weight; each fault is seen by a test of its own.
fn star(alloc: Global) -> Result<Instance, AllocError> {
    let weights = vec![in alloc; 1, 1, 1, 1, 1]?;
    let costs = vec![in alloc; 1, 1, 1, 1]?;
    let passes = vec![in alloc;
        Group([29, 0, 0, 0, 0, 0, 0, 0]),
        Group([27, 0, 0, 0, 0, 0, 0, 0]),
        Group([23, 0, 0, 0, 0, 0, 0, 0]),
        Group([15, 0, 0, 0, 0, 0, 0, 0]),
    ]?;
    checked_holds();
    Ok(Instance::new(weights, costs, passes))
}

#[test]
fn bounds_of_two_faults(rt: HostRuntime) -> Result<(), Fail> {
    let alloc = rt.alloc();
    let mut scratch = Scratch::new();
    let inst = two_faults(alloc)?;
    let all = root(&inst);
    assert_eq!(rt; huffman(&mut scratch, &inst, &all), 14);
    assert_eq!(rt; bound(&mut scratch, &inst, &all), 18);
    assert_eq!(rt; one_step(&mut scratch, &inst, &all), 27);
    assert_eq!(rt; greedy_cost(&mut scratch, &inst, &all), 27);
    let strategy = greedy(alloc, &mut scratch, &inst, &all)?;
    assert_eq!(rt; cost_of(&inst, &strategy, &all), 27);
    Ok(())
}

#[test]
fn one_class_costs_nothing(rt: HostRuntime) -> Result<(), Fail> {
    let mut scratch = Scratch::new();
    let inst = two_faults(rt.alloc())?;
    let all = root(&inst);
    let one = part(&inst, &all, 0, Answer::Fail);
    assert_eq!(rt; huffman(&mut scratch, &inst, &one), 0);
    assert_eq!(rt; bound(&mut scratch, &inst, &one), 0);
    assert_eq!(rt; greedy_cost(&mut scratch, &inst, &one), 0);
    Ok(())
}

#[test]
fn bounds_of_a_receiver(rt: HostRuntime) -> Result<(), Fail> {
    let mut scratch = Scratch::new();
    let inst = receiver(rt.alloc())?;
    let all = root(&inst);
    assert_eq!(rt; huffman(&mut scratch, &inst, &all), 42);
    assert_eq!(rt; bound(&mut scratch, &inst, &all), 84);
    assert_eq!(rt; greedy_cost(&mut scratch, &inst, &all), 84);
    Ok(())
}

#[test]
fn bounds_of_a_star(rt: HostRuntime) -> Result<(), Fail> {
    let mut scratch = Scratch::new();
    let inst = star(rt.alloc())?;
    let all = root(&inst);
    assert_eq!(rt; huffman(&mut scratch, &inst, &all), 12);
    assert_eq!(rt; bound(&mut scratch, &inst, &all), 12);
    assert_eq!(rt; one_step(&mut scratch, &inst, &all), 13);
    assert_eq!(rt; greedy_cost(&mut scratch, &inst, &all), 14);
    Ok(())
}

#[test]
fn huffmans_cost_of_many_weights(rt: HostRuntime) -> Result<(), Fail> {
    assert_eq!(rt; huffman_of(&mut [1_000_000; 101]), 680_000_000);
    assert_eq!(rt; huffman_of(&mut [1; 512]), 4_608);
    Ok(())
}

/// Whether the bound is the same with an order, of all classes and of those that pass the first test.
fn order_agrees(alloc: Global, inst: &Instance) -> Result<bool, AllocError> {
    let mut scratch = Scratch::new();
    let order = Order::of(alloc, inst)?;
    let all = root(inst);
    let whole = ordered_bound(&mut scratch, &order, inst, &all) == bound(&mut scratch, inst, &all);
    if inst.costs.is_empty() {
        return Ok(whole);
    }
    let some = part(inst, &all, 0, Answer::Pass);
    let passed = ordered_bound(&mut scratch, &order, inst, &some)
        == bound(&mut scratch, inst, &some);
    Ok(whole && passed)
}

#[test]
fn an_order_changes_no_bound(rt: HostRuntime) -> Result<(), Fail> {
    let alloc = rt.alloc();
    assert!(rt; order_agrees(alloc, &two_faults(alloc)?)?);
    assert!(rt; order_agrees(alloc, &receiver(alloc)?)?);
    assert!(rt; order_agrees(alloc, &star(alloc)?)?);
    Ok(())
}

/// What is estimated of the first test over all classes, or 0 where it does not split them.
fn first_estimate(alloc: Global, inst: &Instance) -> Result<u64, AllocError> {
    let order = Order::of(alloc, inst)?;
    let all = root(inst);
    if inst.costs.is_empty() || !splits(inst, &all, 0) {
        return Ok(0);
    }
    Ok(Estimate::of(&order, inst, &all).least_sum(&order, inst, &all, 0))
}

/// The sums over the bounds. Without the parts there would be 20, 44 and 5.
#[test]
fn estimates_of_small_instances_are_the_sums(rt: HostRuntime) -> Result<(), Fail> {
    let alloc = rt.alloc();
    assert_eq!(rt; first_estimate(alloc, &two_faults(alloc)?)?, 27);
    assert_eq!(rt; first_estimate(alloc, &receiver(alloc)?)?, 96);
    assert_eq!(rt; first_estimate(alloc, &star(alloc)?)?, 13);
    Ok(())
}
