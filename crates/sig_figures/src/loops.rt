//! The nodes on a loop, in one mode or in any.

ghost use Rattle.std.specs.Prelude.{◌≡◌, ℕ, ◌<◌, ◌≤◌, ◌↔◌, ◌||◌, true, filter, length, IfOk, IfSome};
ghost use Rattle.seq_theory.specs.Problem.{count_up};
ghost use Rattle.sig_reach.specs.Marks.{is_marked};
ghost use Rattle.sig_figures.specs.Loops.{IsLooped, IsLoopedBelow, AreLooped};

use sig_flat::Flat;
use sig_reach::looped;
use sig_types::List;
use std::alloc::{AllocError, Global};

/// Marks the nodes that are marked in the other list too.
fn add_marks(nodes: &[bool], marks: &mut [bool])
    requires { length nodes.now ≡ length marks.old }
    ensures { (node : ℕ) → is_marked marks.new node ≡ (is_marked marks.old node || is_marked nodes.now node) }
{
    for node in 0..nodes.len() {
        if nodes[node] {
            marks[node] = true;
        }
    }
}

/// For each node whether it is on a loop in some mode.
fn looped_in_any(alloc: Global, flat: &Flat) -> Result<Vec<bool>, AllocError>
    ensures long { IfOk result (λ marks. length marks.items ≡ length flat.now.nodes) }
    ensures loops { IfOk result (λ marks. (v : ℕ) → v < length flat.now.nodes → (is_marked marks.items v ≡ true) ↔ IsLoopedBelow flat.now (length flat.now.modes) v) }
{
    let mut marks = vec![in alloc; false; flat.nodes.len()]?;
    for mode in 0..flat.modes.len() as u32 {
        let nodes = looped(alloc, flat, mode)?;
        add_marks(nodes.as_slice(), marks.as_mut_slice());
    }
    Ok(marks)
}

/// The places of the marks.
fn marked(alloc: Global, marks: &[bool]) -> Result<List<u32>, AllocError>
    requires { length marks.now ≤ 4096 }
    ensures { IfOk result (λ nodes. nodes ≡ filter (is_marked marks.now) (count_up 0 (length marks.now))) }
{
    let mut nodes = List::new(alloc);
    for node in 0..marks.len() {
        if marks[node] {
            nodes.push(node as u32)?;
        }
    }
    Ok(nodes)
}

/// For each node whether it is on a loop in the mode, or in some mode where none is named.
fn loop_marks(alloc: Global, flat: &Flat, mode: Option<u32>) -> Result<Vec<bool>, AllocError>
    requires mode { IfSome mode (λ m. m < length flat.now.modes) }
    ensures long { IfOk result (λ marks. length marks.items ≡ length flat.now.nodes) }
    ensures loops { IfOk result (λ marks. (v : ℕ) → v < length flat.now.nodes → (is_marked marks.items v ≡ true) ↔ IsLooped flat.now mode v) }
{
    match mode {
        Some(mode) => looped(alloc, flat, mode),
        None => looped_in_any(alloc, flat),
    }
}

/// The nodes on a loop in the mode, or in any where none is named. It costs a look at each node and link for each mode.
pub fn looped_nodes(alloc: Global, flat: &Flat, mode: Option<u32>) -> Result<List<u32>, AllocError>
    requires mode { IfSome mode (λ m. m < length flat.now.modes) }
    ensures { IfOk result (λ nodes. AreLooped flat.now mode nodes) }
{
    let marks = loop_marks(alloc, flat, mode)?;
    let nodes = marked(alloc, marks.as_slice())?;
    Ok(nodes)
}
