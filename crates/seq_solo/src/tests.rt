//! Worked walks: the rows that they end with, and the group that found no room.

use crate::{Found, Walked, solve_alone, walk};
use seq_graph::settle;
use seq_inst::{Group, Instance, checked_holds, root};
use std::alloc::{AllocError, Global};
use std::test::Fail;

/// Two faults and a good state; test 0 costs 2 and fails for class 1, test 1 costs 1 and fails for
/// class 2.
fn two_faults(alloc: Global) -> Result<Instance, AllocError> {
    let weights = vec![in alloc; 6, 3, 1]?;
    let costs = vec![in alloc; 2, 1]?;
    let passes = vec![in alloc;
        Group([5, 0, 0, 0, 0, 0, 0, 0]),
        Group([3, 0, 0, 0, 0, 0, 0, 0]),
    ]?;
    checked_holds();
    Ok(Instance::new(weights, costs, passes))
}

/// Four faults and a good state of one weight; each fault is seen by a test of its own.
fn star(alloc: Global) -> Result<Instance, AllocError> {
    let weights = vec![in alloc; 1, 1, 1, 1, 1]?;
    let costs = vec![in alloc; 1, 1, 1, 1]?;
    let passes = vec![in alloc;
        Group([29, 0, 0, 0, 0, 0, 0, 0]),
        Group([27, 0, 0, 0, 0, 0, 0, 0]),
        Group([23, 0, 0, 0, 0, 0, 0, 0]),
        Group([15, 0, 0, 0, 0, 0, 0, 0]),
    ]?;
    checked_holds();
    Ok(Instance::new(weights, costs, passes))
}

/// Eight faults of one weight and no good state. Test 0 tells the first four from the last four; each
/// fault is seen by a test of its own, too.
fn two_halves(alloc: Global) -> Result<Instance, AllocError> {
    let weights = vec![in alloc; 1, 1, 1, 1, 1, 1, 1, 1]?;
    let costs = vec![in alloc; 1, 1, 1, 1, 1, 1, 1, 1, 1]?;
    let passes = vec![in alloc;
        Group([15, 0, 0, 0, 0, 0, 0, 0]),
        Group([254, 0, 0, 0, 0, 0, 0, 0]),
        Group([253, 0, 0, 0, 0, 0, 0, 0]),
        Group([251, 0, 0, 0, 0, 0, 0, 0]),
        Group([247, 0, 0, 0, 0, 0, 0, 0]),
        Group([239, 0, 0, 0, 0, 0, 0, 0]),
        Group([223, 0, 0, 0, 0, 0, 0, 0]),
        Group([191, 0, 0, 0, 0, 0, 0, 0]),
        Group([127, 0, 0, 0, 0, 0, 0, 0]),
    ]?;
    checked_holds();
    Ok(Instance::new(weights, costs, passes))
}

/// Six faults and no good state. The tests part the faults across each other, so that one group is a part
/// of several.
fn crossed(alloc: Global) -> Result<Instance, AllocError> {
    let weights = vec![in alloc; 3, 4, 2, 1, 4, 3]?;
    let costs = vec![in alloc; 3, 2, 1, 2, 3, 1]?;
    let passes = vec![in alloc;
        Group([47, 0, 0, 0, 0, 0, 0, 0]),
        Group([52, 0, 0, 0, 0, 0, 0, 0]),
        Group([12, 0, 0, 0, 0, 0, 0, 0]),
        Group([32, 0, 0, 0, 0, 0, 0, 0]),
        Group([33, 0, 0, 0, 0, 0, 0, 0]),
        Group([55, 0, 0, 0, 0, 0, 0, 0]),
    ]?;
    checked_holds();
    Ok(Instance::new(weights, costs, passes))
}

/// One class and no test.
fn one_class(alloc: Global) -> Result<Instance, AllocError> {
    let weights = vec![in alloc; 6]?;
    let costs = Vec::new(alloc);
    let passes = Vec::new(alloc);
    checked_holds();
    Ok(Instance::new(weights, costs, passes))
}

#[test]
fn two_faults_need_one_group(rt: HostRuntime) -> Result<(), Fail> {
    let alloc = rt.alloc();
    let inst = two_faults(alloc)?;
    let Found { rows, missed } = solve_alone(alloc, &inst, 4096)?;
    assert!(rt; missed.is_none());
    assert_eq!(rt; rows.len(), 1);
    assert_eq!(rt; (rows[0].low, rows[0].up), (27, 27));
    Ok(())
}

#[test]
fn a_star_within_four_groups(rt: HostRuntime) -> Result<(), Fail> {
    let alloc = rt.alloc();
    let inst = star(alloc)?;
    let Found { rows, missed } = solve_alone(alloc, &inst, 4)?;
    assert!(rt; missed == Some(Group([15, 0, 0, 0, 0, 0, 0, 0])));
    assert_eq!(rt; rows.len(), 4);
    assert!(rt; rows[0].group == root(&inst));
    assert_eq!(rt; (rows[0].low, rows[0].up), (13, 14));
    Ok(())
}

#[test]
fn a_star_within_five_groups(rt: HostRuntime) -> Result<(), Fail> {
    let alloc = rt.alloc();
    let inst = star(alloc)?;
    let Found { rows, missed } = solve_alone(alloc, &inst, 5)?;
    assert!(rt; missed.is_none());
    assert_eq!(rt; rows.len(), 5);
    assert_eq!(rt; (rows[0].low, rows[0].up), (14, 14));
    Ok(())
}

#[test]
fn two_halves_within_two_groups(rt: HostRuntime) -> Result<(), Fail> {
    let alloc = rt.alloc();
    let inst = two_halves(alloc)?;
    let Found { rows, missed } = solve_alone(alloc, &inst, 2)?;
    assert!(rt; missed == Some(Group([240, 0, 0, 0, 0, 0, 0, 0])));
    assert_eq!(rt; rows.len(), 2);
    assert_eq!(rt; (rows[0].low, rows[0].up), (25, 26));
    assert!(rt; rows[1].group == Group([15, 0, 0, 0, 0, 0, 0, 0]));
    assert_eq!(rt; rows[1].low, 9);
    Ok(())
}

/// The walk meets its limit with rows that are behind what they allow together: so settled they show the
/// least cost.
#[test]
fn crossed_within_seven_groups(rt: HostRuntime) -> Result<(), Fail> {
    let alloc = rt.alloc();
    let inst = crossed(alloc)?;
    let Walked { graph, missed } = walk(alloc, &inst, 7)?;
    assert!(rt; missed.is_some());
    assert_eq!(rt; graph.rows.len(), 7);
    assert!(rt; graph.rows[0].low < graph.rows[0].up);
    let mut settled = graph;
    settle(alloc, &inst, &mut settled)?;
    assert_eq!(rt; settled.rows[0].low, settled.rows[0].up);
    Ok(())
}

#[test]
fn one_class_needs_no_group(rt: HostRuntime) -> Result<(), Fail> {
    let alloc = rt.alloc();
    let inst = one_class(alloc)?;
    let Found { rows, missed } = solve_alone(alloc, &inst, 1)?;
    assert_eq!(rt; rows.len(), 0);
    assert!(rt; missed.is_none());
    Ok(())
}
