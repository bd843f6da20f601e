//! A strategy as a binary tree of tests, which contracts read as the theory's tree by `tree_of`.
ghost use Rattle.std.specs.Prelude.{◌≡◌, IfOk};
ghost use Rattle.seq_theory.specs.Tree.{ask as ask_tree};
ghost use Rattle.seq_inst.specs.Trees.{tree_of};

use std::alloc::{AllocError, Global};

/// A strategy: an end, or a test with what follows where it passes and where it fails.
#[derive(Drop)]
pub enum Strategy {
    Leaf,
    Ask {
        test: u32,
        pass: Box<Strategy>,
        fail: Box<Strategy>,
    },
}

/// The strategy that asks the test first.
pub fn ask_first(
    alloc: Global,
    test: u32,
    pass: Strategy,
    fail: Strategy,
) -> Result<Strategy, AllocError>
    ensures { IfOk result (λ s. tree_of s ≡ ask_tree test (tree_of pass) (tree_of fail)) }
{
    let pass = Box::new(alloc, pass)?;
    let fail = Box::new(alloc, fail)?;
    Ok(Strategy::Ask { test, pass, fail })
}
