//! What a strategy costs over a group: each class's weight times the costs of the tests that it meets,
//! splitting or not. It is summed test by test, the test's cost times the weight of the group that
//! reaches it, so a class is counted once for each test that it meets.
ghost use Rattle.std.specs.Prelude.{◌≡◌, ◌≤◌};
ghost use Rattle.seq_theory.specs.Tree.{AsksOnly, tree_cost};
ghost use Rattle.seq_inst.specs.Instances.{problem_of, IsGroupOf};
ghost use Rattle.seq_inst.specs.Members.{members};
ghost use Rattle.seq_inst.specs.Shapes.{height};
ghost use Rattle.seq_inst.specs.Trees.{tree_of};

use crate::group::Group;
use crate::instance::Instance;
use crate::parts::parts_of;
use crate::strategy::Strategy;
use crate::weights::weight_of;

/// The cost of the strategy over the group. It fits a word: no path asks more than 512 tests, of at
/// most 1,000,000 each, and all weights together are at most 4,097,000,000.
pub fn cost_of(inst: &Instance, strategy: &Strategy, group: &Group) -> u64
    requires there { AsksOnly (problem_of inst.now).tests (tree_of strategy.now) }
    requires short { height (tree_of strategy.now) ≤ 512 }
    requires within { IsGroupOf inst.now group.now }
    ensures { result ≡ tree_cost (problem_of inst.now) (tree_of strategy.now) (members group.now) }
{
    match strategy {
        Strategy::Leaf => 0,
        Strategy::Ask { test, pass, fail } => {
            let parts = parts_of(inst, group, *test);
            let first = u64::from(inst.costs[*test as usize]) * weight_of(inst, group);
            first + (cost_of(inst, pass, &parts.pass) + cost_of(inst, fail, &parts.fail))
        }
    }
}
