//! Worked values of two faults, each seen by a test of its own.
ghost use Rattle.std.specs.Prelude.{◌≡◌, [], ◌∷◌, IfOk};

use crate::{
    Answer, Group, Instance, Strategy, ask_first, cost_of, count_of, part, parts_of, root, splits,
    walk_of, weight_of,
};
use std::alloc::{AllocError, Global};
use std::test::Fail;

/// Weights 6, 3, 1; test 0 costs 2 and fails for class 1, test 1 costs 1 and fails for class 2.
fn two_faults(alloc: Global) -> Result<Instance, AllocError>
    ensures weights { IfOk result (λ i. i.weights.items ≡ 6 ∷ 3 ∷ 1 ∷ []) }
    ensures costs { IfOk result (λ i. i.costs.items ≡ 2 ∷ 1 ∷ []) }
{
    let weights = vec![in alloc; 6, 3, 1]?;
    let costs = vec![in alloc; 2, 1]?;
    let passes = vec![in alloc;
        Group([5, 0, 0, 0, 0, 0, 0, 0]),
        Group([3, 0, 0, 0, 0, 0, 0, 0]),
    ]?;
    Ok(Instance::new(weights, costs, passes))
}

#[test]
fn groups_and_parts(rt: HostRuntime) -> Result<(), Fail> {
    let alloc = rt.alloc();
    let inst = two_faults(alloc)?;
    let all = root(&inst);
    assert!(rt; all == Group([7, 0, 0, 0, 0, 0, 0, 0]));
    assert_eq!(rt; weight_of(&inst, &all), 10);
    let failing = part(&inst, &all, 0, Answer::Fail);
    assert!(rt; failing == Group([2, 0, 0, 0, 0, 0, 0, 0]));
    assert_eq!(rt; count_of(&failing), 1);
    let parts = parts_of(&inst, &all, 1);
    assert!(rt; parts.pass == Group([3, 0, 0, 0, 0, 0, 0, 0]));
    assert!(rt; parts.fail == Group([4, 0, 0, 0, 0, 0, 0, 0]));
    assert!(rt; splits(&inst, &all, 1));
    assert!(rt; !splits(&inst, &failing, 1));
    Ok(())
}

#[test]
fn a_strategy_and_its_walks(rt: HostRuntime) -> Result<(), Fail> {
    let alloc = rt.alloc();
    let inst = two_faults(alloc)?;
    let second = ask_first(alloc, 1, Strategy::Leaf, Strategy::Leaf)?;
    let strategy = ask_first(alloc, 0, second, Strategy::Leaf)?;
    assert_eq!(rt; cost_of(&inst, &strategy, &root(&inst)), 27);
    let walk = walk_of(&inst, &strategy, 2);
    assert_eq!(rt; walk.leaf, 1);
    assert_eq!(rt; walk.tests, 2);
    assert_eq!(rt; walk.cost, 3);
    let walk = walk_of(&inst, &strategy, 1);
    assert_eq!(rt; walk.leaf, 2);
    assert_eq!(rt; walk.tests, 1);
    assert_eq!(rt; walk.cost, 2);
    Ok(())
}
