//! A valid instance: the lists of weights, costs and passing classes, with the fact that a search can
//! take them, and what follows from it for groups, kept in the type, so that no function above asks for it
//! again.
ghost use Rattle.std.specs.Prelude.{◌≡◌};
ghost use Rattle.seq_inst.specs.Valid.{IsValid, problem_from};
ghost use Rattle.seq_inst.specs.Stands.{InstanceStands};

use crate::group::Group;

/// Weights by class, costs by test, and by test the classes that pass it.
#[derive(Drop)]
pub struct Instance {
    pub weights: Vec<u64>,
    pub costs: Vec<u32>,
    pub passes: Vec<Group>,
    pub ghost valid: { IsValid weights.items costs.items passes.items },
    pub ghost stands: { InstanceStands (problem_from weights.items costs.items passes.items) },
}

impl Instance {
    /// An instance of these lists. Takes no memory.
    pub fn new(weights: Vec<u64>, costs: Vec<u32>, passes: Vec<Group>) -> Instance
        requires { IsValid weights.items costs.items passes.items }
        ensures weights { result.weights.items ≡ weights.items }
        ensures costs { result.costs.items ≡ costs.items }
        ensures passes { result.passes.items ≡ passes.items }
    {
        Instance {
            weights,
            costs,
            passes,
        }
    }
}
