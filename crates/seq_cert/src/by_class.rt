//! The states of each class, in one pass over all states: a class has the list of the numbers of its
//! states, upwards, so the work is as much as there are states and classes.
ghost use Rattle.std.specs.Prelude.{◌≡◌, ◌<◌, ◌≤◌, ℕ, [], length, replicate, slice_index_or, IfOk, All};
ghost use Rattle.seq_cert.specs.ByClass.{ArePicked};

use sig_lines::StateLabel;
use sig_types::List;
use std::alloc::{AllocError, Global};

/// So many empty lists.
fn empty_lists(alloc: Global, count: usize) -> Result<Vec<List<usize>>, AllocError>
    ensures { IfOk result (λ lists. lists.items ≡ replicate count []) }
{
    let mut lists = Vec::with_capacity(alloc, count)?;
    for _ in 0..count {
        lists.push(List::new(alloc))?;
    }
    Ok(lists)
}

/// For each class the numbers of its states.
pub fn states_by_class(
    alloc: Global,
    states: &[StateLabel],
    classes: usize,
) -> Result<Vec<List<usize>>, AllocError>
    requires { All (λ (s : StateLabel). s.class < classes) states.now }
    ensures { IfOk result (λ lists. ArePicked states.now classes (length states.now) lists.items) }
{
    let mut lists = empty_lists(alloc, classes)?;
    for at in 0..states.len() {
        let class = states[at].class as usize;
        lists[class].push(at)?;
    }
    Ok(lists)
}
