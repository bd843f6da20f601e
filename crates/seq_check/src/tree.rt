//! C03 and C04: the strategy that the tree lines draw, and what it costs. The lines are walked once, with
//! the groups that are still to be settled on a stack, the next one on top: a leaf settles it, a test puts
//! both parts in its place. What a test costs over its group is added up on the way, so a strategy is
//! never built.
ghost use Rattle.std.specs.Prelude.{◌≡◌, ◌+◌, ◌^◌, ◌<◌, ◌≤◌, ◌∷◌, [], true, length, IfOk, OnOk};
ghost use Rattle.seq_theory.specs.Problem.{all_classes};
ghost use Rattle.seq_theory.specs.Tree.{tree_cost};
ghost use Rattle.seq_inst.specs.Members.{members};
ghost use Rattle.seq_inst.specs.Instances.{problem_of, IsGroupOf};
ghost use Rattle.seq_check.specs.Looks.{first_bad};
ghost use Rattle.seq_check.specs.TreesIn.{tree_in};
ghost use Rattle.seq_check.specs.TreeLooks.{settles, left_after, tree_looks};
ghost use Rattle.seq_check.specs.Walked.{IsWalked, waiting, line_cost, AreWithin};

use seq_cert::{BadCode, BadLine, TreeLine, lowest_class};
use seq_inst::{Group, Instance, is_leaf, parts_of, root, splits, weight_of};
use std::alloc::{AllocError, Global};

/// What a walk over the tree lines finds.
#[derive(Clone, Copy, Debug)]
pub enum Walked {
    /// The first bad line.
    Bad(BadLine),
    /// The lines draw a strategy that tells all classes apart and costs this.
    Costs(u128),
}

/// Whether the line settles the group.
fn does_settle(inst: &Instance, group: &Group, line: TreeLine) -> bool
    ensures { result ≡ settles (problem_of inst.now) (members group.now) line }
{
    match line {
        TreeLine::Leaf { class } => is_leaf(inst, group) && class == lowest_class(group),
        TreeLine::Ask { test } => {
            !is_leaf(inst, group) && (test as usize) < inst.costs.len() && splits(inst, group, test)
        }
    }
}

/// Puts what the line leaves of the group on the stack, and says what it costs.
fn settle(
    inst: &Instance,
    stack: &mut Vec<Group>,
    group: &Group,
    line: TreeLine,
) -> Result<u128, AllocError>
    requires settles { settles (problem_of inst.now) (members group.now) line ≡ true }
    requires within { IsGroupOf inst.now group.now }
    requires all_within { AreWithin (problem_of inst.now) stack.old.items }
    ensures left { OnOk result (waiting stack.new.items ≡ left_after (problem_of inst.now) (members group.now) line (waiting stack.old.items)) }
    ensures within { OnOk result (AreWithin (problem_of inst.now) stack.new.items) }
    ensures cost { IfOk result (λ c. c ≡ line_cost (problem_of inst.now) (members group.now) line) }
    ensures small { IfOk result (λ c. c ≤ 4097000000000000) }
{
    match line {
        TreeLine::Leaf { .. } => Ok(0),
        TreeLine::Ask { test } => {
            let parts = parts_of(inst, group, test);
            stack.push(parts.fail)?;
            stack.push(parts.pass)?;
            Ok(u128::from(inst.costs[test as usize]) * u128::from(weight_of(inst, group)))
        }
    }
}

/// Walks over the tree lines, of which the first stands on this line.
pub fn walk(
    alloc: Global,
    inst: &Instance,
    tree: &[TreeLine],
    line: u32,
) -> Result<Walked, AllocError>
    requires { line + length tree.now < 2 ^ 32 }
    ensures { IfOk result (IsWalked (first_bad (tree_looks (problem_of inst.now) line (all_classes (problem_of inst.now) ∷ []) tree.now)) (tree_cost (problem_of inst.now) (tree_in tree.now) (all_classes (problem_of inst.now)))) }
{
    let mut stack = Vec::new(alloc);
    stack.push(root(inst))?;
    let mut cost = 0;
    for at in 0..tree.len() {
        let bad = BadLine {
            line: line + at as u32,
            code: BadCode::C03,
        };
        match stack.pop() {
            None => return Ok(Walked::Bad(bad)),
            Some(group) => {
                if !does_settle(inst, &group, tree[at]) {
                    return Ok(Walked::Bad(bad));
                }
                let more = settle(inst, &mut stack, &group, tree[at])?;
                cost += more;
            }
        }
    }
    let left = stack.len();
    if left == 0 {
        return Ok(Walked::Costs(cost));
    }
    Ok(Walked::Bad(BadLine {
        line: line + tree.len() as u32,
        code: BadCode::C03,
    }))
}
