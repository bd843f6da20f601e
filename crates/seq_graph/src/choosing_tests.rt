//! What workers choose at one group, and what a glance at it gives, on worked instances.
ghost use Rattle.std.specs.Prelude.{◌≡◌, IfOk};
ghost use Rattle.seq_graph.specs.Known.{IsGraphOf};

use crate::{
    Bounds, Graph, LeastParts, Step, backed_up, choose_step, enter, grow, least_parts, seen_bounds,
};
use seq_inst::{Answer, Group, Instance, checked_holds, is_leaf, root};
use std::alloc::{AllocError, Global};
use std::test::Fail;

/// Four faults of one weight. Each test parts them into two and two, each in another way.
fn four_faults(alloc: Global) -> Result<Instance, AllocError> {
    let weights = vec![in alloc; 1, 1, 1, 1]?;
    let costs = vec![in alloc; 1, 1, 1]?;
    let passes = vec![in alloc;
        Group([3, 0, 0, 0, 0, 0, 0, 0]),
        Group([5, 0, 0, 0, 0, 0, 0, 0]),
        Group([9, 0, 0, 0, 0, 0, 0, 0]),
    ]?;
    checked_holds();
    Ok(Instance::new(weights, costs, passes))
}

/// A graph that knows the group of all classes, where that has two goals or more.
fn with_all(alloc: Global, inst: &Instance) -> Result<Graph, AllocError>
    ensures known { IfOk result (IsGraphOf inst.now) }
{
    let all = root(inst);
    let mut graph = Graph::new(alloc, inst)?;
    if is_leaf(inst, &all) {
        return Ok(graph);
    }
    grow(alloc, inst, &mut graph)?;
    enter(inst, &mut graph, &all);
    Ok(graph)
}

/// What the worker of this number enters from the group of all classes.
fn entered_by(inst: &Instance, graph: &mut Graph, first: Answer, number: u32) -> Option<Group>
    requires known { IsGraphOf inst.now graph.old }
    ensures known { IsGraphOf inst.now graph.new }
    ensures rows { graph.new.rows ≡ graph.old.rows }
{
    if graph.rows.is_empty() {
        return None;
    }
    match choose_step(inst, graph, 0, first, number) {
        Step::Enter { group } => Some(group),
        _ => None,
    }
}

#[test]
fn workers_part_ways_at_equal_tests(rt: HostRuntime) -> Result<(), Fail> {
    let alloc = rt.alloc();
    let inst = four_faults(alloc)?;
    let mut graph = with_all(alloc, &inst)?;
    for (number, first, words) in [
        (0, Answer::Pass, 3),
        (0, Answer::Fail, 12),
        (1, Answer::Pass, 5),
        (1, Answer::Fail, 10),
        (3, Answer::Pass, 9),
        (7, Answer::Pass, 3),
    ] {
        let group = entered_by(&inst, &mut graph, first, number);
        assert_eq!(rt; group, Some(Group([words, 0, 0, 0, 0, 0, 0, 0])));
    }
    Ok(())
}

#[test]
fn a_glance_at_four_faults(rt: HostRuntime) -> Result<(), Fail> {
    let alloc = rt.alloc();
    let inst = four_faults(alloc)?;
    let mut graph = with_all(alloc, &inst)?;
    assert_eq!(rt; graph.rows.len(), 1);
    let seen = seen_bounds(&inst, &graph, 0);
    // Each test costs 4 and leaves two parts of bound 2. No part has a row, and so none has an up.
    assert_eq!(rt;
        seen,
        Bounds {
            low: 8,
            up: u64::MAX
        }
    );
    let whole = backed_up(&inst, &mut graph, 0);
    assert!(rt; seen.low <= whole.low);
    let least = least_parts(&inst, &mut graph, 0);
    let none = LeastParts {
        sum: 8,
        pass: None,
        fail: None,
    };
    assert_eq!(rt; least, none);
    Ok(())
}
