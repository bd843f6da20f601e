//! The walk of one class through a strategy: the leaf at which it ends, and what was asked on its way.
//! Leaves are numbered in preorder, the passing side first, so a failing test passes over all leaves of
//! its passing side.
ghost use Rattle.std.specs.Prelude.{◌≡◌, ◌^◌, ◌<◌, ◌≤◌, length, vec_len};
ghost use Rattle.seq_theory.specs.Tree.{asked, costs_of, AsksOnly};
ghost use Rattle.seq_inst.specs.Instances.{problem_of};
ghost use Rattle.seq_inst.specs.Trees.{tree_of};
ghost use Rattle.seq_inst.specs.Shapes.{height, leaf_count, leaf_of};

use crate::instance::Instance;
use crate::strategy::Strategy;

/// What a class meets on its way through a strategy.
#[derive(Clone, Copy, Debug, PartialEq, Eq)]
pub struct Walk {
    /// The leaf at which the class ends, in preorder from 0.
    pub leaf: u32,
    /// How many tests are asked on the way.
    pub tests: u32,
    /// The sum of the costs of these tests.
    pub cost: u64,
}

/// How many leaves the strategy has.
fn leaves_in(strategy: &Strategy) -> u32
    requires { leaf_count (tree_of strategy.now) < 2 ^ 32 }
    ensures { result ≡ leaf_count (tree_of strategy.now) }
{
    match strategy {
        Strategy::Leaf => 1,
        Strategy::Ask { pass, fail, .. } => leaves_in(pass) + leaves_in(fail),
    }
}

/// The walk of the class through the strategy. It costs a step for each test on the way, and one for
/// each leaf that is passed over.
pub fn walk_of(inst: &Instance, strategy: &Strategy, class: u32) -> Walk
    requires class { class < vec_len inst.now.weights }
    requires there { AsksOnly (problem_of inst.now).tests (tree_of strategy.now) }
    requires short { height (tree_of strategy.now) ≤ 512 }
    requires few { leaf_count (tree_of strategy.now) ≤ 2 ^ 32 }
    ensures leaf { result.leaf ≡ leaf_of (problem_of inst.now) (tree_of strategy.now) class }
    ensures tests { result.tests ≡ length (asked (problem_of inst.now) (tree_of strategy.now) class) }
    ensures cost { result.cost ≡ costs_of (problem_of inst.now) (asked (problem_of inst.now) (tree_of strategy.now) class) }
{
    match strategy {
        Strategy::Leaf => Walk {
            leaf: 0,
            tests: 0,
            cost: 0,
        },
        Strategy::Ask { test, pass, fail } => {
            let passed = inst.passes[*test as usize].has(class);
            let rest = if passed {
                walk_of(inst, pass, class)
            } else {
                let rest = walk_of(inst, fail, class);
                Walk {
                    leaf: leaves_in(pass) + rest.leaf,
                    ..rest
                }
            };
            Walk {
                leaf: rest.leaf,
                tests: 1 + rest.tests,
                cost: u64::from(inst.costs[*test as usize]) + rest.cost,
            }
        }
    }
}
