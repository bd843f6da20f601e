//! Room for the lists of one bound. It is made once and lent to each call, so that a search takes no
//! memory once it runs.

/// Room for the weights of a group's classes and the costs of the tests that split it.
#[derive(Drop)]
pub struct Scratch {
    pub(crate) weights: [u64; 512],
    pub(crate) costs: [u64; 256],
}

impl Scratch {
    /// Room that is not filled. What is left in it means nothing to the next call.
    pub fn new() -> Scratch {
        Scratch {
            weights: [0; 512],
            costs: [0; 256],
        }
    }
}
