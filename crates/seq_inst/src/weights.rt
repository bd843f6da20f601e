//! The weight of a group. It fits a word, since all weights together are at most 4,097,000,000.
ghost use Rattle.std.specs.Prelude.{◌≡◌};
ghost use Rattle.seq_theory.specs.Problem.{weight_of as class_weights};
ghost use Rattle.seq_inst.specs.Members.{members};
ghost use Rattle.seq_inst.specs.Instances.{problem_of, IsGroupOf};

use crate::group::Group;
use crate::instance::Instance;

/// The sum of the weights of the group's classes. It goes from class to class, and passes over words
/// without one.
pub fn weight_of(inst: &Instance, group: &Group) -> u64
    requires { IsGroupOf inst.now group.now }
    ensures { result ≡ class_weights (problem_of inst.now) (members group.now) }
{
    let mut total = 0;
    let mut next = group.first_from(0);
    while let Some(class) = next {
        total += inst.weights[class as usize];
        next = group.first_from(class + 1);
    }
    total
}
