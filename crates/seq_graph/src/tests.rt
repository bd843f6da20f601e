//! What is kept of a group, a row that was learnt, and numbers while there is room for them, on a worked instance.
ghost use Rattle.std.specs.Prelude.{◌≡◌, ◌≤◌, false, [], ◌∷◌, length, IfOk};
ghost use Rattle.seq_theory.specs.Problem.{all_classes, is_end};
ghost use Rattle.seq_inst.specs.Instances.{problem_of};
ghost use Rattle.seq_inst.specs.Members.{members};
ghost use Rattle.seq_graph.specs.Known.{IsGraphOf};
ghost use Rattle.seq_graph.specs.Numbered.{AreNumbersFor};

use crate::bounds::GREATEST_COST;
use crate::learning::greedys_cost;
use crate::{
    Bounds, Graph, Growth, Lists, Node, Numbers, Split, Step, backed_up, grow, learn, list,
    next_step,
};
use seq_inst::{Answer, Group, Instance, Strategy, checked_holds, is_leaf, part, root};
use std::alloc::{AllocError, Global};
use std::test::Fail;

/// Two faults and a good state; test 0 costs 2 and fails for class 1, test 1 costs 1 and fails for
/// class 2.
fn two_faults(alloc: Global) -> Result<Instance, AllocError>
    ensures { IfOk result (λ i. i.costs.items ≡ 2 ∷ 1 ∷ []) }
{
    let weights = vec![in alloc; 6, 3, 1]?;
    let costs = vec![in alloc; 2, 1]?;
    let passes = vec![in alloc;
        Group([5, 0, 0, 0, 0, 0, 0, 0]),
        Group([3, 0, 0, 0, 0, 0, 0, 0]),
    ]?;
    checked_holds();
    Ok(Instance::new(weights, costs, passes))
}

/// No numbers yet. That they are the instance's is one clause here.
fn no_numbers(alloc: Global, inst: &Instance) -> Result<Numbers, AllocError>
    ensures { IfOk result (AreNumbersFor inst.now) }
{
    Numbers::new(alloc, inst)
}

/// Room for one more group. That the numbers stay the instance's is one clause here.
fn more_room(inst: &Instance, numbers: &mut Numbers) -> Result<(), AllocError>
    requires { AreNumbersFor inst.now numbers.old }
    ensures numbers { AreNumbersFor inst.now numbers.new }
    ensures held { IfOk result (λ _. 1 ≤ numbers.new.held) }
{
    let _ = inst;
    numbers.reserve(4, 1)?;
    Ok(())
}

#[test]
fn what_is_kept_of_two_faults(rt: HostRuntime) -> Result<(), Fail> {
    let alloc = rt.alloc();
    let inst = two_faults(alloc)?;
    let all = root(&inst);
    let passing = part(&inst, &all, 0, Answer::Pass);
    assert!(rt; !is_leaf(&inst, &all));
    let mut numbers = no_numbers(alloc, &inst)?;
    more_room(&inst, &mut numbers)?;
    let mut kept = Node::of(&mut numbers, &inst, &all, alloc);
    assert_eq!(rt; (kept.number, kept.weight, kept.bound), (0, 10, 18));
    assert_eq!(rt; (kept.capped, kept.most), (false, 0));
    let lists = Lists {
        splits: Vec::new(alloc),
        waiting: Vec::new(alloc),
    };
    let estimates = numbers.estimates(&inst, &all);
    kept.list(&inst, &all, &estimates, 27, lists, Growth::Free);
    assert_eq!(rt; kept.splits.len(), 0);
    // Test 1 would cost 10 + 18, which is more than greedy, so test 0 waits alone.
    assert_eq!(rt; kept.waiting.len(), 1);
    let done = kept.evaluate(&mut numbers, &inst, &all, 0, Growth::Free);
    assert!(rt; done);
    let first = Split {
        test: 0,
        pass: 1,
        fail: 2,
    };
    assert_eq!(rt; kept.splits.as_slice(), [first].as_slice());
    assert_eq!(rt; numbers.len(), 3);
    assert!(rt; numbers.group_at(1) == passing);
    assert_eq!(rt; numbers.bound_at(1), 7);
    Ok(())
}

/// A graph in which the group of all classes has a row with bounds that are true of any.
fn learnt_root(alloc: Global, inst: &Instance, all: &Group) -> Result<Graph, AllocError>
    requires all { members all.now ≡ all_classes (problem_of inst.now) }
    requires goals { is_end (problem_of inst.now) (members all.now) ≡ false }
    ensures known { IfOk result (IsGraphOf inst.now) }
    ensures one { IfOk result (λ g. length g.rows.items ≡ 1) }
{
    let mut graph = Graph::new(alloc, inst)?;
    grow(alloc, inst, &mut graph)?;
    let bounds = Bounds {
        low: 0,
        up: GREATEST_COST,
    };
    learn(inst, &mut graph, all, bounds);
    Ok(graph)
}

/// The part that is entered first gets a row with greedy's cost for an up.
fn learn_part(alloc: Global, inst: &Instance, graph: &mut Graph) -> Result<(), AllocError>
    requires known { IsGraphOf inst.now graph.old }
    requires one { length graph.old.rows.items ≡ 1 }
    ensures known { IfOk result (λ _. IsGraphOf inst.now graph.new) }
    ensures some { IfOk result (λ _. 1 ≤ length graph.new.rows.items) }
{
    grow(alloc, inst, graph)?;
    let Step::Enter { group } = next_step(inst, graph, 0, Answer::Pass) else {
        return Ok(());
    };
    let cost = greedys_cost(inst, graph, &group, None);
    learn(inst, graph, &group, Bounds { low: 0, up: cost });
    Ok(())
}

#[test]
fn a_learnt_row_counts_for_its_parent(rt: HostRuntime) -> Result<(), Fail> {
    let alloc = rt.alloc();
    let inst = two_faults(alloc)?;
    let all = root(&inst);
    assert!(rt; !is_leaf(&inst, &all));
    let mut graph = learnt_root(alloc, &inst, &all)?;
    // Test 0 has the least sum: 20, and the bound 7 of its passing part, of which no up is known yet.
    let before = backed_up(&inst, &mut graph, 0);
    assert_eq!(rt; (before.low, before.up), (27, u64::MAX));
    learn_part(alloc, &inst, &mut graph)?;
    assert_eq!(rt; graph.rows.len(), 2);
    let after = backed_up(&inst, &mut graph, 0);
    assert_eq!(rt; (after.low, after.up), (27, 27));
    // Greedy costs 27, and test 0 may cost no more.
    list(&inst, &mut graph, 0);
    let listed = graph.rows[0];
    assert_eq!(rt; (listed.low, listed.up), (0, 27));
    assert_eq!(rt;
        (graph.nodes[0].capped, graph.nodes[0].waiting.len()),
        (true, 1)
    );
    Ok(())
}

#[test]
fn numbers_while_there_is_room(rt: HostRuntime) -> Result<(), Fail> {
    let alloc = rt.alloc();
    let inst = two_faults(alloc)?;
    let all = root(&inst);
    let mut numbers = no_numbers(alloc, &inst)?;
    let without = numbers.number_within(&inst, &all);
    assert_eq!(rt; without, None);
    more_room(&inst, &mut numbers)?;
    let with = numbers.number_within(&inst, &all);
    assert_eq!(rt; with, Some(0));
    assert_eq!(rt; numbers.find(&all), Some(0));
    let cost = numbers.greedy_of(&inst, &all);
    assert_eq!(rt; cost, 27);
    let tree = numbers.greedy_tree(alloc, &inst, &all)?;
    assert!(rt; matches!(tree, Strategy::Ask { test: 0, .. }));
    Ok(())
}

#[test]
fn room_for_three_groups(rt: HostRuntime) -> Result<(), Fail> {
    let alloc = rt.alloc();
    let inst = two_faults(alloc)?;
    for workers in [1, 2, 16] {
        let graph = Graph::with_room(alloc, &inst, 3, workers)?;
        assert_eq!(rt; graph.rows.len(), 0);
        assert_eq!(rt; graph.lists.len(), 3);
        assert!(rt; graph.growth == Growth::Fixed);
    }
    Ok(())
}
